// Buffers of sevens that are lent to a reader, and what it leaves in them.
ghost use Rattle.std.specs.Prelude.{◌≡◌, ◌&&◌, ◌+◌, ◌-◌, ◌^◌, ◌<◌, ◌==◌, take, drop, get_or, length, replicate};
ghost use Rattle.std.specs.List.{list_all};

use table::Table;

// Whether each item is the one given.
pub fn all_are<T: PartialEq>(items: &[T], wanted: &T) -> bool
    ensures { result ≡ list_all (λ x. T.eq x wanted.now) items.now }
{
    items.iter().all(|x| x == wanted)
}

// The offset behind the last clause: how many literals the clauses have; 0 where there is none, as the definition `offset` has it.
pub fn total(table: &Table<'_, '_>) -> usize
    ensures { result ≡ get_or table.now.offs.now table.now.clauses 0 }
{
    table.offs.get(table.clauses).map_or(0, |end| *end as usize)
}

// The first so many items, and those behind them.
pub fn cut<T>(items: &[T], at: usize) -> (&[T], &[T])
    ensures front { result.0.now ≡ take at items.now }
    ensures behind { result.1.now ≡ drop at items.now }
{
    items.split_at(at.min(items.len()))
}

// The buffers that a reader is lent.
#[derive(Debug, Drop)]
pub struct Buffers<'a> {
    pub lits: &'a mut [u16],
    pub offs: &'a mut [u32],
    pub stack: &'a mut [u32],
}

// What a reader leaves in its buffers: the table, the stack's words, and whether all that is behind them is as it came, which is printed beside them.
#[derive(Clone, Copy, Debug)]
pub struct Left<'a> {
    pub table: Table<'a, 'a>,
    pub stack: &'a [u32],
    pub is_rest_kept: bool,
}

impl<'a> Buffers<'a> {
    // Buffers of sevens, of the room that is lent for them.
    pub fn new(lits: &'a mut [u16], offs: &'a mut [u32], stack: &'a mut [u32]) -> Self
        ensures lits { result.lits.now ≡ replicate (length lits.old) 7 }
        ensures offs { result.offs.now ≡ replicate (length offs.old) 7 }
        ensures stack { result.stack.now ≡ replicate (length stack.old) 7 }
    {
        lits.fill(7);
        offs.fill(7);
        stack.fill(7);
        Buffers { lits, offs, stack }
    }

    // Whether they are as they came.
    pub fn are_kept(&self) -> bool
        ensures { result ≡ (list_all (λ x. x == 7) self.now.lits.now
            && (list_all (λ x. x == 7) self.now.offs.now && list_all (λ x. x == 7) self.now.stack.now)) }
    {
        all_are(self.lits, &7) && all_are(self.offs, &7) && all_are(self.stack, &7)
    }

    // What they hold of a table and a stack of so many entries.
    pub fn left(&self, variables: usize, clauses: usize, removals: usize) -> Left<'_>
        ensures variables { result.table.variables ≡ variables }
        ensures clauses { result.table.clauses ≡ clauses }
        ensures offs { clauses < 2 ^ 64 - 1 → result.table.offs.now ≡ take (clauses + 1) self.now.offs.now }
    {
        let (offs, offs_behind) = cut(self.offs, clauses.saturating_add(1));
        let total = offs.last().map_or(0, |end| *end as usize);
        let (lits, lits_behind) = cut(self.lits, total);
        let (stack, stack_behind) = cut(self.stack, removals.saturating_mul(2));
        Left {
            table: Table {
                variables,
                clauses,
                lits,
                offs,
            },
            stack,
            is_rest_kept: all_are(lits_behind, &7)
                && all_are(offs_behind, &7)
                && all_are(stack_behind, &7),
        }
    }
}

#[cfg(test)]
mod tests {
    use super::*;
    use std::test::Fail;

    #[test]
    fn buffers_have_the_room_lent(rt: HostRuntime) -> Result<(), Fail> {
        let mut lits = [0; 3];
        let mut offs = [0; 2];
        let mut stack = [0; 4];
        let buffers = Buffers::new(&mut lits, &mut offs, &mut stack);
        assert_eq!(rt; buffers.lits.len(), 3);
        assert!(rt; buffers.are_kept());
        buffers.stack[0] = 8;
        assert!(rt; !buffers.are_kept());
        Ok(())
    }
}
