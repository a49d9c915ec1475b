// A table and its stack written, and read back into fresh buffers.
use forms::{Counted, Kept};
use saved_write::write_saved;
use say::lent::{Buffers, Left, all_are, cut, total};
use std::fmt;
use table::{Stack, Table};

// How many of a table's literals came back.
fn literals_back(table: &Table<'_, '_>, left: &Left<'_>) -> usize {
    let (lits, _) = cut(table.lits, total(table));
    lits.iter()
        .zip(left.table.lits)
        .filter(|(lent, read)| lent == read)
        .count()
}

// Whether the offsets and the stack came back.
fn are_words_back(table: &Table<'_, '_>, stack: &Stack<'_>, left: &Left<'_>) -> bool {
    let (offs, _) = cut(table.offs, table.clauses.saturating_add(1));
    let (words, _) = cut(stack.words, stack.count.saturating_mul(2));
    offs == left.table.offs && words == left.stack
}

// Prints how much of a table and its stack came back, and ends the line.
fn compares(rt: &impl Print, table: &Table<'_, '_>, stack: &Stack<'_>, left: &Left<'_>) {
    let words = if are_words_back(table, stack, left) {
        "same offsets and stack"
    } else {
        "OTHER OFFSETS OR STACK"
    };
    let _ = println!(rt;
        "; {} of {} literals came back, {words}{}",
        literals_back(table, left),
        total(table),
        Kept(left.is_rest_kept)
    );
}

// Reads a form into fresh buffers, beside the table and the stack that it was written from, and ends the line with what came back.
fn returns(rt: &impl Print, table: &Table<'_, '_>, stack: &Stack<'_>, form: &[u8]) {
    let mut lits = [0; 16000];
    let mut offs = [0; 4001];
    let mut words = [0; 8000];
    let mut buffers = Buffers::new(&mut lits, &mut offs, &mut words);
    match forms::read(form, &mut buffers) {
        Ok(counts) => {
            let _ = print!(rt; "{}", Counted(counts));
            let left = buffers.left(counts.variables, counts.clauses, counts.removals);
            compares(rt, table, stack, &left);
        }
        Err(refusal) => {
            let _ = println!(rt; "{refusal}{}", Kept(buffers.are_kept()));
        }
    }
}

// Writes a table and its stack, reads the form into fresh buffers, and prints a line with what came back.
pub fn comes_back(
    rt: &impl Print,
    label: impl fmt::Display + Drop,
    table: &Table<'_, '_>,
    stack: &Stack<'_>,
    out: &mut [u8],
) {
    match write_saved(table, stack, out) {
        Ok(len) => {
            let _ = print!(rt; "{label}: {len} bytes; ");
            let (form, _) = cut(out, len);
            returns(rt, table, stack, form);
        }
        Err(refusal) => {
            let _ = println!(rt; "{label}: {refusal}{}", Kept(all_are(out, &7)));
        }
    }
}
