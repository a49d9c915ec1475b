// Saved forms read into buffers of sevens, and what came of it printed.
#![tactic(auto)]

ghost use Rattle.std.specs.Prelude.{◌≡◌, replicate};
ghost use Rattle.table.specs.Limits.{base};
ghost use Rattle.saved.specs.Field.{narrow};
ghost use Rattle.saved.specs.Saved.{loaded, reading};
ghost use Rattle.saved_read.specs.Restored.{restored};

use saved_read::{Restored, read_saved};
use say::lent::Buffers;
use say::{Contents, Items};
use std::fmt;
use table::Refusal;

// Whether what should be as it came is so.
#[derive(Clone, Copy, Debug)]
pub struct Kept(pub bool);

impl fmt::Display for Kept {
    fn fmt<W: fmt::Write>(&self, f: &mut fmt::Formatter<W>) -> fmt::Result {
        f.write_str(if self.0 { "; kept" } else { "; CHANGED" })
    }
}

// What was read, in counts.
#[derive(Clone, Copy, Debug)]
pub struct Counted(pub Restored);

impl fmt::Display for Counted {
    fn fmt<W: fmt::Write>(&self, f: &mut fmt::Formatter<W>) -> fmt::Result {
        let Restored {
            variables,
            clauses,
            removals,
        } = self.0;
        write!(
            f,
            "reads {variables} variables, {clauses} clauses, {removals} removals"
        )
    }
}

// Buffers of sevens that have exactly the room that the reader asks for.
pub fn buffers<'a>(
    lits: &'a mut [u16; 16000],
    offs: &'a mut [u32; 4001],
    stack: &'a mut [u32; 8000],
) -> Buffers<'a>
    ensures lits { result.lits.now ≡ replicate 16000 7 }
    ensures offs { result.offs.now ≡ replicate 4001 7 }
    ensures stack { result.stack.now ≡ replicate 8000 7 }
{
    Buffers::new(lits, offs, stack)
}

// Reads a form into lent buffers.
pub fn read(form: &[u8], buffers: &mut Buffers<'_>) -> Result<Restored, Refusal>
    ensures { loaded (restored result) buffers.new.lits.now buffers.new.offs.now buffers.new.stack.now
        ≡ reading base narrow form.now buffers.old.lits.now buffers.old.offs.now buffers.old.stack.now }
{
    read_saved(form, buffers.lits, buffers.offs, buffers.stack)
}

// Reads a form into lent buffers, and prints a line with what came.
pub fn reads_into(rt: &impl Print, label: &[u8], form: &[u8], buffers: &mut Buffers<'_>) {
    say::label(rt, label);
    match read(form, buffers) {
        Ok(counts) => {
            let left = buffers.left(counts.variables, counts.clauses, counts.removals);
            let _ = print!(rt; "{}{}", Counted(counts), Contents(&left.table));
            if say::is_small(&left.table) {
                let _ = print!(rt; "; stack{}", Items(left.stack));
            }
            let _ = println!(rt; "{}", Kept(left.is_rest_kept));
        }
        Err(refusal) => {
            let _ = println!(rt; "{refusal}{}", Kept(buffers.are_kept()));
        }
    }
}

// Reads a form into buffers that have exactly the room asked for, and prints a line with what came.
pub fn reads(rt: &impl Print, label: &[u8], form: &[u8]) {
    reads_into(
        rt,
        label,
        form,
        &mut buffers(&mut [0; 16000], &mut [0; 4001], &mut [0; 8000]),
    );
}

#[cfg(test)]
mod tests {
    use super::*;
    use std::test::Fail;

    #[test]
    fn buffers_are_there(rt: HostRuntime) -> Result<(), Fail> {
        let mut lits = [0; 16000];
        let mut offs = [0; 4001];
        let mut stack = [0; 8000];
        let buffers = buffers(&mut lits, &mut offs, &mut stack);
        assert_eq!(rt; buffers.offs.len(), 4001);
        assert!(rt; buffers.are_kept());
        Ok(())
    }
}
