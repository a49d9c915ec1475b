// A book like K1 with a rule of 1,000 literals: shrunk, saved, read into fresh buffers, and rebuilt from a choice that leaves that rule false.
ghost use Rattle.std.specs.Prelude.{◌≤◌};

use crate::back::comes_back;
use rebuild::rebuild;
use removal::eliminate;
use say::Items;
use say::lent::{Buffers, cut};
use std::{array, fmt};
use table::{Stack, Table};

// Literal number i of the book, from 0. Clause 1 has the options 1 to 1,000; clause 2 says that 1,000 wants 1,001; the others lead round from 1 to 999
// and back to 1, so that none of them can go.
fn book_code(i: usize) -> u16 {
    match i {
        0..1000 => 2 * i as u16 + 2,
        1000 => 2001,
        1001 => 2002,
        _ => {
            let v = ((i - 1002) / 2 % 999) as u16;
            if i % 2 == 0 {
                2 * v + 3
            } else {
                2 * ((v + 1) % 999) + 2
            }
        }
    }
}

// The offset behind clause k: 0, 1,000, and then 2 more each time.
fn book_offset(k: usize) -> u32
    requires { k ≤ 1001 }
{
    if k == 0 { 0 } else { 998 + 2 * k as u32 }
}

// Whether a literal is true under the values.
fn is_true(x: u16, vals: &[u8]) -> bool {
    match usize::from(x / 2).checked_sub(1).and_then(|v| vals.get(v)) {
        Some(val) => (*val == 1) == (x % 2 == 0),
        None => false,
    }
}

// How many clauses are true under the values; none, where the table is not sound.
fn true_clauses(table: &Table<'_, '_>, vals: &[u8]) -> usize {
    match table.checked() {
        Ok(book) => (1..=table.clauses)
            .filter(|k| book.row(*k).iter().any(|x| is_true(*x, vals)))
            .count(),
        Err(_) => 0,
    }
}

// The variables that have the value 1, each after a blank.
#[derive(Clone, Copy)]
struct Ones<'a>(&'a [u8]);

impl fmt::Display for Ones<'_> {
    fn fmt<W: fmt::Write>(&self, f: &mut fmt::Formatter<W>) -> fmt::Result {
        for (i, val) in self.0.iter().enumerate() {
            if *val == 1 {
                write!(f, " {}", i + 1)?;
            }
        }
        Ok(())
    }
}

// Rebuilds what was read, from values that are all 0.
fn rebuilds(rt: &impl Print, table: &Table<'_, '_>, stack: &Stack<'_>) {
    let mut vals = [0; 1001];
    let clauses = table.clauses;
    let many = true_clauses(table, &vals);
    let _ = println!(rt; "the book read back, all values 0: {many} of {clauses} clauses are true");
    let _ = match rebuild(table, stack, &mut vals) {
        Ok(()) => {
            let ones = Ones(&vals);
            let many = true_clauses(table, &vals);
            println!(rt;
                "the book read back, rebuild flips{ones}: {many} of {clauses} clauses are true"
            )
        }
        Err(refusal) => println!(rt; "{refusal}"),
    };
}

// Reads the book's form into fresh buffers, and rebuilds.
fn restores(rt: &impl Print, form: &[u8]) {
    let mut lits = [0; 16000];
    let mut offs = [0; 4001];
    let mut words = [0; 8000];
    let mut buffers = Buffers::new(&mut lits, &mut offs, &mut words);
    match forms::read(form, &mut buffers) {
        Ok(counts) => {
            let table = Table {
                variables: counts.variables,
                clauses: counts.clauses,
                lits: &lits,
                offs: &offs,
            };
            let stack = Stack {
                words: &words,
                count: counts.removals,
            };
            rebuilds(rt, &table, &stack);
        }
        Err(refusal) => {
            let _ = println!(rt; "{refusal}");
        }
    }
}

// Makes the book, eliminates, prints the stack, writes the book's form, compares what is read from it, and reads it once more.
pub fn run(rt: &impl Print) {
    let lits: [u16; 3000] = array::from_fn(|i| book_code(i));
    let offs: [u32; 1002] = array::from_fn(|k| book_offset(k));
    let table = Table {
        variables: 1001,
        clauses: 1001,
        lits: &lits,
        offs: &offs,
    };
    let mut words = [7; 2002];
    match eliminate(&table, &mut words) {
        Ok(count) => {
            let (entries, _) = cut(&words, count.saturating_mul(2));
            let _ = println!(rt; "the book: eliminate removes {count}:{}", Items(entries));
            let stack = Stack {
                words: &words,
                count,
            };
            let mut form = [7; 11023];
            comes_back(rt, "the book saved", &table, &stack, &mut form);
            restores(rt, &form);
        }
        Err(refusal) => {
            let _ = println!(rt; "{refusal}");
        }
    }
}
