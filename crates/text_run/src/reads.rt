// A text read into buffers of sevens, and what came of it.
use say::Contents;
use say::lent::Buffers;
use text::{Counts, read_text};

// What to print of buffers, of which all or the rest is as it came, or isn't.
fn whether_kept(is_kept: bool) -> &'static str {
    if is_kept {
        "the rest is as it came"
    } else {
        "THE REST IS CHANGED"
    }
}

// Reads a text into lent buffers, and prints a line with what came.
pub fn reads_into(rt: &impl Print, label: &[u8], text: &[u8], buffers: &mut Buffers<'_>) {
    say::label(rt, label);
    let _ = match read_text(text, buffers.lits, buffers.offs) {
        Ok(Counts { variables, clauses }) => {
            let left = buffers.left(variables, clauses, 0);
            let contents = Contents(&left.table);
            let rest = whether_kept(left.is_rest_kept);
            println!(rt; "reads {variables} variables, {clauses} clauses{contents}; {rest}")
        }
        Err(refusal) => println!(rt; "{refusal}; {}", whether_kept(buffers.are_kept())),
    };
}

// Reads a text into buffers with a cell too many.
pub fn reads(rt: &impl Print, label: &[u8], text: &[u8]) {
    let mut lits = [0; 16001];
    let mut offs = [0; 4002];
    let mut buffers = Buffers::new(&mut lits, &mut offs, &mut []);
    reads_into(rt, label, text, &mut buffers);
}
