// Runs the saved form's writer and reader on document 01's K2: both ways, every refusal of the writer, every fault of every field with its place,
// every prefix, short buffers, and the order of two faults. It prints what came, and whether the lent buffers are as they should be. A buffer's old
// contents are sevens. Most cases are in standard input, a line for each, with the label and the call first. For the writer, the offsets, the stack, the
// count of entries and the output's room follow; the literals are K1's. For the reader, changes of K2 follow, each a place and, to the base 16,
// the byte that comes there. An empty line ends the cases, and no more than 8,192 bytes are read.
#![tactic(auto)]

mod faults; // faults.rt: every fault of a form
mod form; // form.rt: K2 laid down by hand, and a form printed
mod writes; // writes.rt: K2 both ways, and the writer's refusals

use lines::Case;

// Runs each line, and what is too long for one.
fn main(rt: HostRuntime) {
    writes::k2(&rt);
    let mut table = [0; 8192];
    let len = lines::read_table(&mut rt.stdin(), &mut table);
    for line in table[..len]
        .split(|b| *b == b'\n')
        .take_while(|line| !line.is_empty())
    {
        let case = Case { line };
        if case.field(1) == b"write".as_slice() {
            writes::writes_case(&rt, case);
        } else {
            faults::reads_case(&rt, case);
        }
    }
    faults::prefixes(&rt);
    faults::short_buffers(&rt);
}
