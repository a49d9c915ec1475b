// K2 both ways, and the writer's refusals, on K1's table.
use crate::form::{K2, Written};
use forms::Kept;
use lines::Case;
use saved_write::write_saved;
use say::lent::{all_are, cut};
use std::array;
use table::{Stack, Table};

// Writes K1's table, with offsets and a stack of its own, into an output of sevens, and prints a line with what came: the form's length, and whether
// the rest is as it came.
fn writes(rt: &impl Print, label: &[u8], offs: &[u32], stack: &Stack<'_>, out: &mut [u8]) {
    let table = Table {
        variables: 5,
        clauses: 5,
        lits: &[2, 8, 9, 10, 3, 4, 5, 6, 7, 2],
        offs,
    };
    say::label(rt, label);
    let _ = match write_saved(&table, stack, out) {
        Ok(len) => {
            let (_, behind) = cut(out, len);
            println!(rt; "writes {len} bytes{}", Kept(all_are(behind, &7)))
        }
        Err(refusal) => println!(rt; "{refusal}{}", Kept(all_are(out, &7))),
    };
}

// K2 written from K1's table and its stack of two entries, and read back.
pub fn k2(rt: &impl Print) {
    let stack = Stack {
        words: &[2, 10, 1, 8, 7, 7, 7, 7, 7, 7],
        count: 2,
    };
    let mut out = [7; 80];
    writes(rt, b"K2", &[0, 2, 4, 6, 8, 10], &stack, &mut out);
    let (form, _) = cut(&out, 63);
    let _ = println!(rt; "the bytes:{}", Written(form));
    forms::reads(rt, b"K2", &K2);
}

// Writes what a line has, into an output with as much room as it says, if that is no more than 80 bytes.
pub fn writes_case(rt: &impl Print, case: Case<'_>) {
    let offs: [u32; 6] = array::from_fn(|i| case.item(2, i));
    let mut words = [0; 10];
    let stack = Stack {
        words: case.items::<u32>(3, &mut words),
        count: case.item(4, 0),
    };
    if let Some(out) = [7; 80].get_mut(..case.item::<usize>(4, 1)) {
        writes(rt, case.field(0), &offs, &stack, out);
    }
}
