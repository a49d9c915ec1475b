// Both sides of each limit, through the writer and the reader, the longest form, and clauses of 99 to 1,000 literals.
ghost use Rattle.std.specs.Prelude.{◌≤◌};

use crate::back::comes_back;
use crate::form::{Form, Kind};
use forms::reads;
use removal::eliminate;
use say::lay;
use std::fmt;
use table::{Stack, Table};

// Reads headers alone, with an end, on both sides of each limit.
fn headers(rt: &impl Print) {
    for (label, variables, clauses, literals) in [
        ("a header and an end, 0 variables", 0, 0, 0),
        ("2000 variables", 2000, 0, 0),
        ("2001 variables", 2001, 0, 0),
        ("65535 variables", 65535, 0, 0),
        ("4000 clauses", 0, 4000, 0),
        ("4001 clauses", 0, 4001, 0),
        ("16000 literals", 0, 0, 16000),
        ("16001 literals", 0, 0, 16001),
    ] {
        let mut room = [0; 14];
        let mut form = Form::new(&mut room, variables, clauses, literals, 0);
        form.put_end();
        reads(rt, label.as_bytes(), form.bytes());
    }
}

// Writes a table and a stack's entries, with so much room for the form, and reads it back.
fn saves(
    rt: &impl Print,
    label: impl fmt::Display + Drop,
    table: &Table<'_, '_>,
    stack: &Stack<'_>,
    room: usize,
)
    requires { room ≤ 60014 }
{
    comes_back(rt, label, table, stack, &mut [7; 60014][..room]);
}

// Writes a table with no removals, with so much room for the form, and reads it back. The stack has two words for each clause, as many as the writer
// asks for.
fn live(rt: &impl Print, label: impl fmt::Display + Drop, table: &Table<'_, '_>, room: usize)
    requires clauses { table.now.clauses ≤ 4001 }
    requires room { room ≤ 60014 }
{
    let stack = Stack {
        words: &[7; 8002][..2 * table.clauses],
        count: 0,
    };
    saves(rt, label, table, &stack, room);
}

// Writes a table after elimination, with so much room for the form, and reads it back. Where elimination refuses, there is no entry, as ever.
fn removed(rt: &impl Print, label: impl fmt::Display + Drop, table: &Table<'_, '_>, room: usize)
    requires { room ≤ 60014 }
{
    let mut words = [7; 8000];
    let count = eliminate(table, &mut words).unwrap_or(0);
    let stack = Stack {
        words: &words,
        count,
    };
    saves(rt, label, table, &stack, room);
}

// 2,000 and 2,001 variables.
fn limit_of_variables(rt: &impl Print) {
    let most = Table {
        variables: 2000,
        clauses: 1,
        lits: &[4001, 4000],
        offs: &[0, 2],
    };
    live(rt, "2000 variables", &most, 23);
    let more = Table {
        variables: 2001,
        ..most
    };
    live(rt, "2001 variables", &more, 23);
}

// 4,000 and 4,001 clauses, all empty.
fn limit_of_clauses(rt: &impl Print) {
    let most = Table {
        variables: 0,
        clauses: 4000,
        lits: &[7],
        offs: &[0; 4002],
    };
    live(rt, "4000 clauses", &most, 20014);
    let more = Table {
        clauses: 4001,
        ..most
    };
    live(rt, "4001 clauses", &more, 20019);
}

// 1,000 and 1,001 literals in a clause.
fn limit_of_a_clause(rt: &impl Print) {
    let mut lits = [0; 1001];
    lay::codes(&mut lits, 1001);
    let most = Table {
        variables: 2000,
        clauses: 1,
        lits: &lits,
        offs: &[0, 1000],
    };
    live(rt, "1000 literals in a clause", &most, 2019);
    let more = Table {
        offs: &[0, 1001],
        ..most
    };
    live(rt, "1001 literals in a clause", &more, 2021);
}

// How many clauses are removed, where all are live or all removed.
fn removals(kind: Kind, clauses: u16) -> u16 {
    match kind {
        Kind::Live => 0,
        Kind::Removed => clauses,
    }
}

// Reads forms with one clause: 1,000 and 1,001 literals in a field, where limits come before a bad number.
fn long_fields(rt: &impl Print) {
    for (label, kind, k, many) in [
        ("an 02 field of 1000 literals", Kind::Live, 1, 1000),
        ("an 02 field of 1001 literals", Kind::Live, 1, 1001),
        (
            "an 02 field of 1001 literals, number 0",
            Kind::Live,
            0,
            1001,
        ),
        ("an 03 field of 1000 literals", Kind::Removed, 1, 1000),
        ("an 03 field of 1001 literals", Kind::Removed, 1, 1001),
        (
            "an 03 field of 1001 literals, number 0",
            Kind::Removed,
            0,
            1001,
        ),
        ("an 03 field of no literals", Kind::Removed, 1, 0),
    ] {
        let mut room = [0; 2100];
        let mut form = Form::new(&mut room, 2000, 1, many, removals(kind, 1));
        form.put_clause(kind, k, many);
        form.put_end();
        reads(rt, label.as_bytes(), form.bytes());
    }
}

// Reads forms with 16 clauses of 1,000 literals and a last one, all live or all removed: 16,000 and 16,001 literals in the fields, where the one that
// passes the limit is told.
fn long_forms(rt: &impl Print) {
    for (label, kind, k, many) in [
        ("16000 literals in 02 fields, then none", Kind::Live, 17, 0),
        ("16000 literals in 02 fields, then 1", Kind::Live, 17, 1),
        (
            "16000 literals in 02 fields, then 1, number 0",
            Kind::Live,
            0,
            1,
        ),
        ("16000 literals in 03 fields, then 1", Kind::Removed, 17, 1),
        (
            "16000 literals in 03 fields, then 1, number 0",
            Kind::Removed,
            0,
            1,
        ),
    ] {
        let mut room = [0; 32200];
        let mut form = Form::new(&mut room, 2000, 17, 16000, removals(kind, 17));
        for i in 1..=16 {
            form.put_clause(kind, i, 1000);
        }
        form.put_clause(kind, k, many);
        form.put_end();
        reads(rt, label.as_bytes(), form.bytes());
    }
}

// 16,000 and 16,001 literals in all: 16 clauses of 1,000, and a clause of one literal behind them.
fn limit_of_all_literals(rt: &impl Print) {
    let mut lits = [0; 16001];
    let mut offs = [0; 18];
    lay::all_literals(&mut lits, &mut offs);
    let most = Table {
        variables: 2000,
        clauses: 16,
        lits: &lits,
        offs: &offs,
    };
    live(rt, "16000 literals in all, live", &most, 32094);
    let more = Table {
        clauses: 17,
        ..most
    };
    live(rt, "16001 literals in all, live", &more, 32101);
    removed(rt, "16000 literals in all, removed", &most, 32126);
}

// 4,000 clauses of 4 literals, all removed.
fn longest_form(rt: &impl Print) {
    let mut lits = [0; 16000];
    lay::codes(&mut lits, 2000);
    let mut offs = [0; 4001];
    lay::offsets(&mut offs, 4);
    let table = Table {
        variables: 2000,
        clauses: 4000,
        lits: &lits,
        offs: &offs,
    };
    removed(rt, "the longest form, 60013 bytes of output", &table, 60013);
    removed(rt, "the longest form", &table, 60014);
}

// Clauses on both sides of 100, 256 and 1,000 literals, each live and then removed.
fn long_clauses(rt: &impl Print) {
    let mut lits = [0; 1000];
    lay::codes(&mut lits, 1000);
    for many in [99, 100, 255, 256, 999, 1000] {
        let table = Table {
            variables: 2000,
            clauses: 1,
            lits: &lits,
            offs: &[0, many],
        };
        live(rt, format_args!("{many} literals, live"), &table, 2021);
        removed(rt, format_args!("{many} literals, removed"), &table, 2021);
    }
}

// Every limit.
pub fn run(rt: &impl Print) {
    headers(rt);
    limit_of_variables(rt);
    limit_of_clauses(rt);
    limit_of_a_clause(rt);
    long_fields(rt);
    long_forms(rt);
    limit_of_all_literals(rt);
    longest_form(rt);
    long_clauses(rt);
}
