// Rebuild: a choice for the remaining rules turned back into one for the whole book.
#![tactic(auto)]

ghost use Rattle.std.specs.Prelude.{◌≡◌, ◌+◌, ◌*◌, ◌≤◌, length};
ghost use Rattle.rules.specs.Walk.{found};
ghost use Rattle.rules.specs.Clause.{value, holds};
ghost use Rattle.rules.specs.Rebuild.{fails, falsified};
ghost use Rattle.table.specs.Limits.{base};
ghost use Rattle.table.specs.Lent.{lent};
ghost use Rattle.table.specs.Table.{row, book_of};
ghost use Rattle.table.specs.Stack.{lay};
ghost use Rattle.table.specs.Values.{values_of, bytes_of, bad_value};
ghost use Rattle.table.specs.Answer.{verdict, outcome};
ghost use Rattle.index.specs.Index.{live_of};
ghost use Rattle.rebuild.specs.Rebuild.{rebuilt, rebuilding};
ghost use Rattle.rebuild.specs.Inner.{Valued, mended_bytes};

use index::Marks;
use stack::Opened;
use table::{Entry, Refusal, Stack, Table};

// The lowest of the variables 1 to n whose byte is neither 0 nor 1. (`false_clause` searches in the same way; `find` over a range is no plainer.)
#[tactic(auto, unfolding(table::specs::Values::bad_value), using(crate::proofs::Lowest::lowest, crate::proofs::Bytes::byte_tests))]
fn bad_value(n: usize, vals: &[u8]) -> Option<usize>
    requires { n ≤ length vals.now }
    ensures { result ≡ found (bad_value vals.now n) }
{
    for i in 0..n {
        if 1 < vals[i] {
            return Some(i + 1);
        }
    }
    None
}

// Values lent for an opened stack: a byte for each variable of its table, 0 or 1.
#[derive(Drop)]
struct Choice<'l, 'o, 's, 'v> {
    opened: Opened<'l, 'o, 's>,
    vals: &'v mut [u8],
    ghost valued: { Valued opened.book.table.variables vals.now },
}

impl Choice<'_, '_, '_, '_> {
    // Whether the literal is true under the values.
    #[tactic(auto, using(crate::proofs::Bytes::value_tests))]
    fn value_of(&self, l: u16) -> bool
        requires { (2 ≤ l) × (l ≤ 2 * self.now.opened.book.table.variables + 1) }
        ensures { result ≡ value (values_of self.now.vals.now) l }
    {
        let v = (l / 2) as usize - 1;
        if l % 2 == 0 {
            self.vals[v] == 1
        } else {
            self.vals[v] != 1
        }
    }

    // Whether some literal of clause k is true under the values.
    #[tactic(auto, unfolding(rules::specs::Clause::holds))]
    fn is_true(&self, k: usize) -> bool
        requires { (1 ≤ k) × (k ≤ self.now.opened.book.table.clauses) }
        ensures { result ≡ holds (values_of self.now.vals.now) (row (lent self.now.opened.book.table) k) }
    {
        self.opened.book.row(k).iter().any(|l| self.value_of(*l))
    }

    // Whether clause k is live and false under the values.
    #[tactic(auto, unfolding(rules::specs::Rebuild::fails, index::specs::Index::live_of), using(crate::proofs::Rows::clauses_few))]
    fn fails_at(&self, live: &Marks, k: usize) -> bool
        requires { (1 ≤ k) × (k ≤ self.now.opened.book.table.clauses) }
        ensures { result ≡ fails (book_of (lent self.now.opened.book.table)) (live_of live.now) (values_of self.now.vals.now) k }
    {
        live[k] && !self.is_true(k)
    }

    // The lowest live clause that is false under the values.
    #[tactic(auto, unfolding(rules::specs::Rebuild::falsified), using(crate::proofs::Lowest::lowest))]
    fn false_clause(&self, live: &Marks) -> Option<usize>
        ensures { result ≡ found (falsified (book_of (lent self.now.opened.book.table)) (live_of live.now) (values_of self.now.vals.now)) }
    {
        for k in 0..self.opened.book.table.clauses {
            if self.fails_at(live, k + 1) {
                return Some(k + 1);
            }
        }
        None
    }

    // The walk's step at an entry: where the entry's clause is false, its literal's variable is flipped.
    #[tactic(auto, unfolding(crate::specs::Inner::mended_bytes))]
    fn mend(&mut self, entry: Entry)
        requires named { (1 ≤ entry.clause) × (entry.clause ≤ self.old.opened.book.table.clauses) }
        requires coded { (2 ≤ entry.literal) × (entry.literal ≤ 2 * self.old.opened.book.table.variables + 1) }
        ensures opened { self.new.opened ≡ self.old.opened }
        ensures vals { self.new.vals.now ≡ mended_bytes (lent self.old.opened.book.table) (entry.clause, entry.literal) self.old.vals.now }
        ensures same_lend { self.new.vals.ghost_name ≡ self.old.vals.ghost_name }
    {
        if !self.is_true(entry.clause as usize) {
            let v = (entry.literal / 2) as usize - 1;
            self.vals[v] = 1 - self.vals[v];
        }
    }

    // The walk from the newest entry to the oldest (document 004, section 4).
    fn walk_back(&mut self)
        ensures vals { self.new.vals.now
            ≡ lay (bytes_of (rebuilt (lent self.old.opened.book.table) self.old.opened.stack.words.now self.old.opened.stack.count self.old.vals.now)
            self.old.opened.book.table.variables)
            self.old.vals.now }
        ensures same_lend { self.new.vals.ghost_name ≡ self.old.vals.ghost_name }
    {
        let stack = self.opened.stack;
        for i in (0..stack.count).rev() {
            self.mend(stack.entry(i));
        }
    }
}

// Rebuilds the values: they satisfied the live clauses, and then satisfy every clause of the table.
#[tactic(auto, using(crate::proofs::Rows::clauses_few))]
pub fn rebuild(t: &Table, stack: &Stack, vals: &mut [u8]) -> Result<(), Refusal>
    ensures { outcome (verdict result) vals.new ≡ rebuilding base (lent t.now) stack.now.words.now stack.now.count vals.old }
{
    let room = t.variables <= vals.len();
    let mut live = [false; 4001];
    let opened = stack::open_stack(t, stack, room, &mut live)?;
    opened.check_entries(&mut live)?;
    if let Some(variable) = bad_value(t.variables, vals) {
        return Err(Refusal::BadValues(variable));
    }
    let mut choice = Choice { opened, vals };
    if let Some(clause) = choice.false_clause(&live) {
        return Err(Refusal::NotModel(clause));
    }
    choice.walk_back();
    Ok(())
}
