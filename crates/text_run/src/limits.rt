// Both sides of each limit that a long text is needed for, and short buffers.
use crate::reads::{reads, reads_into};
use say::lay::Laid;
use say::lent::{Buffers, cut};
use std::fmt::Write as _;

// The room for a text: a byte more than the reader takes.
const ROOM: usize = 65537;

// Puts a clause of the variables 1 to `many` behind a text.
fn put_clause(text: &mut Laid<'_>, many: u32) {
    for variable in 1..=many {
        let _ = write!(text, "{variable} ");
    }
    text.put_all(b"0\n");
}

// A text with a problem line and so many clauses of the variables 1 to `many`, laid down in lent room.
fn text_of<'a>(room: &'a mut [u8], problem: &[u8], clauses: u32, many: u32) -> Laid<'a> {
    let mut text = Laid::new(room);
    text.put_all(problem);
    for _ in 0..clauses {
        put_clause(&mut text, many);
    }
    text
}

// 4,000 clauses, all empty.
fn limit_of_clauses(rt: &impl Print) {
    let mut room = [0; ROOM];
    let text = text_of(&mut room, b"p cnf 0 4000\n", 4000, 0);
    reads(rt, b"4000 clauses", text.bytes());
}

// 1,000 and 1,001 literals in a clause.
fn limit_of_a_clause(rt: &impl Print) {
    let mut room = [0; ROOM];
    let most = text_of(&mut room, b"p cnf 2000 1\n", 1, 1000);
    reads(rt, b"1000 literals in a clause", most.bytes());
    let more = text_of(&mut room, b"p cnf 2000 1\n", 1, 1001);
    reads(rt, b"1001 literals in a clause", more.bytes());
}

// 16,000 and 16,001 literals in all.
fn limit_of_all_clauses(rt: &impl Print) {
    let mut room = [0; ROOM];
    let most = text_of(&mut room, b"p cnf 1000 16\n", 16, 1000);
    reads(rt, b"16000 literals in all", most.bytes());
    let mut more = text_of(&mut room, b"p cnf 1000 17\n", 16, 1000);
    put_clause(&mut more, 1);
    reads(rt, b"16001 literals in all", more.bytes());
}

// 65,536 and 65,537 bytes.
fn limit_of_the_text(rt: &impl Print) {
    let mut text = [b' '; ROOM];
    Laid::new(&mut text).put_all(b"p cnf 0 0\n");
    let (most, _) = cut(&text, 65536);
    reads(rt, b"65536 bytes", most);
    reads(rt, b"65537 bytes", &text);
}

// Short buffers: 3 comes first.
fn short_buffers(rt: &impl Print) {
    let mut lits = [0; 16000];
    let mut offs = [0; 4001];
    let mut few_lits = [0; 15999];
    let mut few_offs = [0; 4000];
    let mut exact = Buffers::new(&mut lits, &mut offs, &mut []);
    reads_into(rt, b"just enough room", b"p cnf 1 1\n1 0\n", &mut exact);
    let mut few_literals = Buffers::new(&mut few_lits, &mut offs, &mut []);
    reads_into(rt, b"a literal too few", b"x", &mut few_literals);
    let mut few_offsets = Buffers::new(&mut lits, &mut few_offs, &mut []);
    reads_into(rt, b"an offset too few", b"x", &mut few_offsets);
}

// Every limit, and short buffers.
pub fn run(rt: &impl Print) {
    limit_of_clauses(rt);
    limit_of_a_clause(rt);
    limit_of_all_clauses(rt);
    limit_of_the_text(rt);
    short_buffers(rt);
}
