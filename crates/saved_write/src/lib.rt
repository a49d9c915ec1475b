// The writer of the saved form: each field is written into the unused tail of the output.
#![tactic(auto)]

ghost use Rattle.std.specs.Prelude.{◌≡◌, ◌++◌, ◌+◌, ◌*◌, ◌≤◌, ◌<◌, length};
ghost use Rattle.table.specs.Limits.{base};
ghost use Rattle.table.specs.Lent.{lent};
ghost use Rattle.table.specs.Stack.{entry_at, entries, lay};
ghost use Rattle.table.specs.Answer.{outcome};
ghost use Rattle.index.specs.Index.{live_of};
ghost use Rattle.stack.specs.Tests.{live_after};
ghost use Rattle.saved.specs.Bytes.{digits, bytes_of};
ghost use Rattle.saved.specs.Field.{narrow, field};
ghost use Rattle.saved.specs.Form.{live_lines, removed_lines, encode};
ghost use Rattle.saved.specs.Saved.{writing};
ghost use Rattle.saved_write.specs.Written.{written};
ghost use Rattle.saved_write.specs.Inner.{fields_of, live_line, removed_line, Put};

use index::Marks;
use stack::Opened;
use table::{Refusal, SoundTable, Stack, Table};

// One number, high byte first.
fn put_number(out: &mut [u8], x: u16)
    requires { 2 ≤ length out.old }
    ensures { out.new ≡ lay (digits 2 x) out.old }
{
    out[..2].copy_from_slice(&x.to_be_bytes());
}

// Numbers one after the other.
fn put_numbers(out: &mut [u8], xs: &[u16])
    requires { 2 * length xs.now ≤ length out.old }
    ensures { out.new ≡ lay (bytes_of 2 xs.now) out.old }
{
    for (i, x) in xs.iter().enumerate() {
        put_number(&mut out[2 * i..], *x);
    }
}

// A field, whose value is the numbers of `front` and then those of `lits`, and how many bytes it has. The tag is a byte of document 01's form.
fn put_field(out: &mut [u8], tag: u8, front: &[u16], lits: &[u16]) -> usize
    requires few { (length front.now ≤ 4) × (length lits.now ≤ 1000) }
    requires room { 3 + 2 * (length front.now + length lits.now) ≤ length out.old }
    ensures { Put (field 2 tag (front.now ++ lits.now)) out.old out.new result }
{
    let first = 3 + 2 * front.len();
    let len = 2 * (front.len() + lits.len());
    out[0] = tag;
    put_number(&mut out[1..], len as u16);
    put_numbers(&mut out[3..], front);
    put_numbers(&mut out[first..], lits);
    3 + len
}

// The field of clause k where it is live, and how many bytes it has.
#[tactic(auto, using(crate::proofs::Limits::limits))]
fn put_if_live(out: &mut [u8], t: &SoundTable, live: &Marks, k: usize) -> usize
    requires named { (1 ≤ k) × (k ≤ t.now.table.clauses) }
    requires room { length (fields_of 2 (live_line (lent t.now.table) (live_of live.now) k)) ≤ length out.old }
    ensures { Put (fields_of 2 (live_line (lent t.now.table) (live_of live.now) k)) out.old out.new result }
{
    if live[k] {
        return put_field(out, 2, &[k as u16], t.row(k));
    }
    0
}

// The fields of the live clauses, numbers rising, and how many bytes they have. `put_removed` goes through the entries in the same way; one loop for both
// would need a closure that tells each field's length beforehand, which is no plainer.
fn put_live(out: &mut [u8], t: &SoundTable, live: &Marks) -> usize
    requires { length (fields_of 2 (live_lines (lent t.now.table) (live_of live.now) t.now.table.clauses)) ≤ length out.old }
    ensures { Put (fields_of 2 (live_lines (lent t.now.table) (live_of live.now) t.now.table.clauses)) out.old out.new result }
{
    let mut at = 0;
    for k in 0..t.table.clauses {
        at += put_if_live(&mut out[at..], t, live, k + 1);
    }
    at
}

// The field of the entry with i entries before it, and how many bytes it has.
fn put_entry(out: &mut [u8], opened: &Opened, i: usize) -> usize
    requires i_lt_count { i < opened.now.stack.count }
    requires room { length (field 2 3 (removed_line (lent opened.now.book.table) (entry_at opened.now.stack.words.now i))) ≤ length out.old }
    ensures { Put (field 2 3 (removed_line (lent opened.now.book.table) (entry_at opened.now.stack.words.now i))) out.old out.new result }
{
    let entry = opened.stack.entry(i);
    let k = entry.clause as u16;
    let l = entry.literal as u16;
    put_field(out, 3, &[k, l], opened.book.row(usize::from(k)))
}

// The fields of the removed clauses, oldest first, and how many bytes they have.
fn put_removed(out: &mut [u8], opened: &Opened) -> usize
    requires { length (fields_of 3 (removed_lines (lent opened.now.book.table) (entries opened.now.stack.words.now opened.now.stack.count))) ≤ length out.old }
    ensures { Put (fields_of 3 (removed_lines (lent opened.now.book.table) (entries opened.now.stack.words.now opened.now.stack.count)))
        out.old out.new result }
{
    let mut at = 0;
    for i in 0..opened.stack.count {
        at += put_entry(&mut out[at..], opened, i);
    }
    at
}

// The whole form.
#[tactic(auto, using(crate::proofs::Limits::limits))]
fn put_form(out: &mut [u8], opened: &Opened, live: &Marks)
    requires marked { live_of live.now ≡ live_after (lent opened.now.book.table) opened.now.stack.words.now opened.now.stack.count }
    requires room { length (encode narrow (lent opened.now.book.table) (entries opened.now.stack.words.now opened.now.stack.count)) ≤ length out.old }
    ensures { out.new ≡ lay (encode narrow (lent opened.now.book.table) (entries opened.now.stack.words.now opened.now.stack.count)) out.old }
{
    let t = &opened.book.table;
    let head = [
        t.variables as u16,
        t.clauses as u16,
        t.offs[t.clauses] as u16,
        opened.stack.count as u16,
    ];
    let live_at = put_field(out, 1, &head, &[]);
    let removed_at = live_at + put_live(&mut out[live_at..], &opened.book, live);
    let end = removed_at + put_removed(&mut out[removed_at..], opened);
    put_field(&mut out[end..], 127, &[], &[]);
}

// The form written, once the tests that come first passed: every entry's literal blocks, and the output has the form's exact length or more.
#[tactic(auto, using(crate::proofs::Limits::limits))]
fn write_checked(opened: &Opened, live: &mut Marks, out: &mut [u8]) -> Result<usize, Refusal>
    ensures { outcome (written result) out.new ≡ writing base narrow (lent opened.now.book.table) opened.now.stack.words.now opened.now.stack.count out.old }
{
    opened.check_entries(live)?;
    let t = &opened.book.table;
    let literals = t.offs[t.clauses] as usize;
    let len = 14 + 5 * t.clauses + 2 * opened.stack.count + 2 * literals;
    if out.len() < len {
        return Err(Refusal::NoRoom);
    }
    put_form(out, opened, live);
    Ok(len)
}

// Writes the saved form of the table and its stack, and answers its length.
pub fn write_saved(t: &Table, stack: &Stack, out: &mut [u8]) -> Result<usize, Refusal>
    ensures { outcome (written result) out.new ≡ writing base narrow (lent t.now) stack.now.words.now stack.now.count out.old }
{
    let mut live = [false; 4001];
    let opened = stack::open_stack(t, stack, true, &mut live)?;
    write_checked(&opened, &mut live, out)
}
