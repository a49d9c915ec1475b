// Shrinks a rule book: reads DIMACS text from standard input, removes every rule that can go, and prints the removals, oldest first, and then the
// rules that remain as a text of the same kind; or the refusal (document 01, 'The program and one run whole'). On standard error it says that it takes
// no argument, that standard input cannot be read, or that standard output cannot be written.
#![tactic(auto)]

ghost use Rattle.std.specs.Prelude.{◌≤◌, length, IfOk};

mod output; // output.rt: the bytes that wait to be written

use output::Output;
use stack::Opened;
use std::env::FillError;
use std::fmt::{self, Write as _};
use std::io::{self, Read, Write};
use std::rt::Env;
use table::{Entry, Refusal, Stack, Table};
use text::Counts;

// A literal as DIMACS has it: the variable, with a minus before a negation.
#[derive(Clone, Copy, Debug)]
struct Literal(u32);

impl fmt::Display for Literal {
    fn fmt<W: fmt::Write>(&self, f: &mut fmt::Formatter<W>) -> fmt::Result {
        let Literal(code) = self;
        let sign = if code % 2 == 1 { "-" } else { "" };
        write!(f, "{sign}{}", code / 2)
    }
}

// A rule in its stored order, ending in 0.
#[derive(Clone, Copy, Debug)]
struct Rule<'a>(&'a [u16]);

impl fmt::Display for Rule<'_> {
    fn fmt<W: fmt::Write>(&self, f: &mut fmt::Formatter<W>) -> fmt::Result {
        for code in self.0 {
            write!(f, "{} ", Literal(u32::from(*code)))?;
        }
        f.write_str("0")
    }
}

// Why there is no shrunk book, or not all of it.
#[derive(Clone, Copy, Debug, PartialEq, Eq)]
enum Failure {
    Refused(Refusal),
    Unwritten,
}

impl From<Refusal> for Failure {
    fn from(refusal: Refusal) -> Failure {
        Failure::Refused(refusal)
    }
}

impl From<fmt::Error> for Failure {
    fn from(_: fmt::Error) -> Failure {
        Failure::Unwritten
    }
}

// The whole output: the removals on the stack, oldest first, and the rules that they leave, rising.
fn say_book<W: Write>(
    out: &mut Output<W>,
    opened: &Opened<'_, '_, '_>,
    live: &[bool],
) -> fmt::Result {
    let Table {
        variables,
        clauses,
        ..
    } = opened.book.table;
    let removals = opened.stack.count;
    writeln!(out, "c removed {removals} of {clauses}")?;
    for i in 0..removals {
        let Entry { clause, literal } = opened.stack.entry(i);
        writeln!(out, "c {clause} {}", Literal(literal))?;
    }
    writeln!(out, "p cnf {variables} {}", clauses - removals)?;
    for k in 1..=clauses {
        if live.get(k) == Some(&true) {
            writeln!(out, "{}", Rule(opened.book.row(k)))?;
        }
    }
    Ok(())
}

// Shrinks the book that a text holds, and prints what is left of it.
fn say_shrunk<W: Write>(out: &mut Output<W>, text: &[u8]) -> Result<(), Failure> {
    let mut lits = [0; 16000];
    let mut offs = [0; 4001];
    let Counts { variables, clauses } = text::read_text(text, &mut lits, &mut offs)?;
    let table = Table {
        variables,
        clauses,
        lits: &lits,
        offs: &offs,
    };
    let mut words = [0; 8000];
    let count = removal::eliminate(&table, &mut words)?;
    let stack = Stack {
        words: &words,
        count,
    };
    let mut live = [false; 4001];
    let opened = stack::open_stack(&table, &stack, true, &mut live)?;
    say_book(out, &opened, &live)?;
    Ok(())
}

// Prints what is left of the book that a text holds, or the refusal.
fn say<W: Write>(out: &mut Output<W>, text: &[u8]) -> fmt::Result {
    match say_shrunk(out, text) {
        Ok(()) => {}
        Err(Failure::Refused(refusal)) => writeln!(out, "{refusal}")?,
        Err(Failure::Unwritten) => return Err(fmt::Error),
    }
    out.flush()
}

// Reads until the buffer is full or the input ends. A loop by hand: std's read_to_end has its buffer on the heap, and read_exact does not tell how many
// bytes came.
fn read_input(input: &mut impl Read, text: &mut [u8]) -> io::Result<usize>
    ensures { IfOk result (λ len. len ≤ length text.new) }
{
    let mut len = 0;
    while len < text.len() {
        let more = input.read(&mut text[len..])?;
        if more == 0 {
            break;
        }
        len += more;
    }
    Ok(len)
}

// Whether the program was given an argument.
fn has_argument(rt: &impl Env) -> bool {
    !matches!(rt.arg(1, &mut [0]), Err(FillError::NotPresent))
}

fn main(rt: HostRuntime) {
    if has_argument(&rt) {
        let _ = eprintln!(rt; "usage: shrink < BOOK");
        return;
    }
    let mut text = [0; 65537];
    let Ok(len) = read_input(&mut rt.stdin(), &mut text) else {
        let _ = eprintln!(rt; "shrink: standard input cannot be read");
        return;
    };
    if say(&mut Output::new(io::writer(&rt)), &text[..len]).is_err() {
        let _ = eprintln!(rt; "shrink: standard output cannot be written");
    }
}
