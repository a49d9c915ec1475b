// What the programs that run the library lend it, and what they print.
#![tactic(auto)]

pub mod lay; // lay.rt: bytes, long clauses and their offsets laid into lent buffers
pub mod lent; // lent.rt: lent buffers of sevens, and what a reader leaves in them

ghost use Rattle.std.specs.Prelude.{◌↔◌, ◌≤◌, IsTrue, length};

use std::fmt;
use table::Table;

// Prints what a line is about, and a colon; a label's bytes need not be text. What can't be printed is left out.
pub fn label(rt: &impl Print, label: &[u8]) {
    let _ = rt.write_all(label);
    let _ = print!(rt; ": ");
}

// Items, each after a blank.
#[derive(Clone, Copy, Debug)]
pub struct Items<'a, T>(pub &'a [T]);

impl<T: fmt::Display> fmt::Display for Items<'_, T> {
    fn fmt<W: fmt::Write>(&self, f: &mut fmt::Formatter<W>) -> fmt::Result {
        for item in self.0 {
            write!(f, " {item}")?;
        }
        Ok(())
    }
}

// Whether a table is small enough to be printed whole.
pub fn is_small(table: &Table<'_, '_>) -> bool
    ensures { IsTrue result ↔ (table.now.clauses ≤ 20) × (length table.now.lits.now ≤ 20) }
{
    table.clauses <= 20 && table.lits.len() <= 20
}

// What a table's buffers hold, where it is small, and else how many literals it has.
#[derive(Clone, Copy, Debug)]
pub struct Contents<'a, 'b>(pub &'a Table<'b, 'b>);

impl fmt::Display for Contents<'_, '_> {
    fn fmt<W: fmt::Write>(&self, f: &mut fmt::Formatter<W>) -> fmt::Result {
        let table = self.0;
        if is_small(table) {
            write!(
                f,
                "; offsets{}; literals{}",
                Items(table.offs),
                Items(table.lits)
            )
        } else {
            write!(f, "; {} literals", table.lits.len())
        }
    }
}
