// Runs document 01's cases, both sides of each limit, every refusal from 3 to 9 and every order of two refusals through the code, and prints what
// came: answers, numbers and places, and whether the lent buffers are as they should be. A buffer's old contents are sevens. The cases are in standard
// input, a line for each: the label, the call, the numbers of variables and clauses, the literals, the offsets, the stack, then the count of entries and
// a removal's clause and literal, and the values. A line that says 'limits' is for those whose tables are too long for a line. An empty line ends the
// cases, and no more than 8,192 bytes are read. A call that has no such name prints a line without a result. What can't be printed is left out.
#![tactic(auto)]

mod calls; // calls.rt: each call, and what came of it
mod limits; // limits.rt: both sides of each limit

use lines::Case;
use table::{Stack, Table};

// Makes the call that a line names, of those that only read the stack.
fn reads(rt: &impl Print, case: Case<'_>, table: &Table<'_, '_>, words: &[u32]) {
    let count = case.item(6, 0);
    let stack = Stack { words, count };
    match case.field(1) {
        b"next_blocked" => calls::asks(rt, table, &stack),
        b"check_stack" => calls::checks(rt, table, &stack),
        b"clause_literals" => calls::hands_out(rt, table, count),
        b"rebuild" => calls::rebuilds(rt, case, table, &stack),
        _ => {}
    }
}

// Makes the call that a line names, and prints a line with what came.
fn runs(rt: &impl Print, case: Case<'_>) {
    let mut lits = [0u16; 10];
    let mut offs = [0u32; 6];
    let mut stack = [0u32; 20];
    let table = Table {
        variables: case.item(2, 0),
        clauses: case.item(2, 1),
        lits: case.items(3, &mut lits),
        offs: case.items(4, &mut offs),
    };
    let stack = case.items(5, &mut stack);
    let call = case.field(1);
    say::label(rt, case.field(0));
    let _ = rt.write_all(call);
    let _ = print!(rt; " ");
    match call {
        b"eliminate" => calls::eliminates(rt, &table, stack),
        b"remove" => calls::removes(rt, case, &table, stack),
        _ => reads(rt, case, &table, stack),
    }
    let _ = println!(rt;);
}

// Runs each line.
fn main(rt: HostRuntime) {
    let mut table = [0; 8192];
    let len = lines::read_table(&mut rt.stdin(), &mut table);
    for line in table[..len]
        .split(|b| *b == b'\n')
        .take_while(|line| !line.is_empty())
    {
        if line == b"limits".as_slice() {
            limits::run(&rt);
        } else {
            runs(&rt, Case { line });
        }
    }
}
