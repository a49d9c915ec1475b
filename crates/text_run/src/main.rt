// Runs texts through the reader and prints what came: the counts, offsets and literals, or the refusal with its place, and whether the lent buffers
// are as they should be. A buffer's old contents are sevens; each has one cell more than the reader asks for. The short texts are in standard input, a
// line for each, up to an empty one, of the first 4,096 bytes: its label, and behind a bar the text, in which \n, \r and \t are a line end, a carriage
// return and a tab. What can't be printed is left out.
#![tactic(auto)]

mod limits; // limits.rt: both sides of each limit that a long text is needed for, and short buffers
mod reads; // reads.rt: a text read, and what came of it

use lines::Case;
use say::lay::Laid;

// Puts what a line's text stands for behind a text; a backslash by itself stands for nothing.
fn put_unescaped(text: &mut Laid<'_>, escaped: &[u8]) {
    let mut before = b' ';
    for byte in escaped {
        match (before, *byte) {
            (_, b'\\') => {}
            (b'\\', b'n') => text.put(b'\n'),
            (b'\\', b'r') => text.put(b'\r'),
            (b'\\', b't') => text.put(b'\t'),
            _ => text.put(*byte),
        }
        before = *byte;
    }
}

// Reads what a line's text stands for, at most 200 bytes of it.
fn reads_line(rt: &impl Print, case: Case<'_>) {
    let mut room = [0; 200];
    let mut text = Laid::new(&mut room);
    put_unescaped(&mut text, case.field(1));
    reads::reads(rt, case.field(0), text.bytes());
}

// Reads the text of each line, and then the long ones.
fn main(rt: HostRuntime) {
    let mut table = [0; 4096];
    let len = lines::read_table(&mut rt.stdin(), &mut table);
    for line in table[..len]
        .split(|b| *b == b'\n')
        .take_while(|line| !line.is_empty())
    {
        reads_line(&rt, Case { line });
    }
    limits::run(&rt);
}
