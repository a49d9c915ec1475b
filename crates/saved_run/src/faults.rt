// Every fault of a form and its place: K2 with bytes changed, cut off or added.
ghost use Rattle.std.specs.Prelude.{◌≤◌};

use crate::form::K2;
use forms::{Kept, reads, reads_into};
use lines::Case;
use say::lent::{Buffers, cut};
use table::Refusal;

// A change of a form, such as 3=07.
#[derive(Clone, Copy, Debug)]
struct Change {
    place: usize,
    byte: u8,
}

impl Change {
    // The change that a text says.
    fn of(text: &[u8]) -> Change {
        Change {
            place: lines::number(lines::piece(text, b'=', 0)),
            byte: lines::hex_byte(lines::piece(text, b'=', 1)),
        }
    }
}

// K2 as changes leave it: 63 bytes, or 64.
#[derive(Clone, Copy, Debug)]
struct Changed {
    bytes: [u8; 64],
    len: usize,
}

impl Changed {
    // K2 itself.
    fn k2() -> Changed {
        let mut bytes = [0; 64];
        bytes[..63].copy_from_slice(&K2);
        Changed { bytes, len: 63 }
    }

    // Puts the byte at its place. The places 63 and 64 add a byte to a form of 63, 64 without a byte of its own; behind them is no place.
    fn make(&mut self, change: Change) {
        if change.place == 63 || change.place == 64 {
            self.len = 64;
        }
        if let Some(byte) = self.bytes.get_mut(change.place) {
            *byte = change.byte;
        }
    }
}

// Reads K2 with the changes of a line.
pub fn reads_case(rt: &impl Print, case: Case<'_>) {
    let mut changed = Changed::k2();
    for text in case
        .field(2)
        .split(|b| *b == b' ')
        .filter(|text| !text.is_empty())
    {
        changed.make(Change::of(text));
    }
    let (form, _) = cut(&changed.bytes, changed.len);
    reads(rt, case.field(0), form);
}

// What came of a form: its refusal, if it was refused, and whether the buffers are as they came. Neither follows from the other here: both are printed.
#[derive(Clone, Copy, Debug, PartialEq, Eq)]
struct Fault {
    refusal: Option<Refusal>,
    is_kept: bool,
}

// What comes of a form that is read into buffers that have exactly the room asked for.
fn fault_of(form: &[u8]) -> Fault {
    let mut lits = [0; 16000];
    let mut offs = [0; 4001];
    let mut stack = [0; 8000];
    let mut buffers = Buffers::new(&mut lits, &mut offs, &mut stack);
    let refusal = forms::read(form, &mut buffers).err();
    Fault {
        refusal,
        is_kept: buffers.are_kept(),
    }
}

// The prefixes from one length to another, which came to the same.
fn say_prefixes(rt: &impl Print, from: usize, to: usize, fault: Fault) {
    let _ = print!(rt; "the first {from} to {to} bytes of K2: ");
    let _ = match fault.refusal {
        Some(refusal) => println!(rt; "{refusal}{}", Kept(fault.is_kept)),
        None => println!(rt; "read"),
    };
}

// Reads each prefix of K2 that is shorter than K2, a line for each run of the same refusals.
pub fn prefixes(rt: &impl Print) {
    let mut from = 0;
    let mut last = fault_of(&[]);
    for len in 1..K2.len() {
        let fault = fault_of(&K2[..len]);
        if fault != last {
            say_prefixes(rt, from, len - 1, last);
            from = len;
            last = fault;
        }
    }
    say_prefixes(rt, from, K2.len() - 1, last);
}

// Reads a form into buffers with so much room, and prints a line with what came.
fn reads_within(rt: &impl Print, label: &[u8], form: &[u8], lits: usize, offs: usize, stack: usize)
    requires lits { lits ≤ 16000 }
    requires offs { offs ≤ 4001 }
    requires stack { stack ≤ 8000 }
{
    reads_into(
        rt,
        label,
        form,
        &mut Buffers::new(
            &mut [0; 16000][..lits],
            &mut [0; 4001][..offs],
            &mut [0; 8000][..stack],
        ),
    );
}

// Buffers with a cell too few, for K2 and for a form with a fault: 3 comes first.
pub fn short_buffers(rt: &impl Print) {
    reads_within(rt, b"15999 literals", &K2, 15999, 4001, 8000);
    reads_within(rt, b"4000 offsets", &K2, 16000, 4000, 8000);
    reads_within(rt, b"7999 stack words", &K2, 16000, 4001, 7999);
    reads_within(rt, b"15999 literals, no form", &[], 15999, 4001, 8000);
    reads_within(rt, b"4000 offsets, no form", &[], 16000, 4000, 8000);
    reads_within(rt, b"7999 stack words, no form", &[], 16000, 4001, 7999);
}
