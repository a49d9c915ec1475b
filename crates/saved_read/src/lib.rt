// The reader of the saved form (document 01, 'The saved form'). Every field is tested first, and each clause's part of the bytes is remembered; then the
// table is filled, the stack is checked, and the lent buffers are written at the end, so that a refused form changes no cell. The three buffers stay apart,
// as C lends them, and what is read on the way stands in arrays of fixed size, since there is no heap.
#![tactic(auto)]

ghost use Rattle.std.specs.Prelude.{◌≡◌, ◌&&◌, ◌+◌, ◌-◌, ◌*◌, ◌≤◌, ◌<◌, length, get_or, drop, Ok};
ghost use Rattle.rules.specs.Walk.{every};
ghost use Rattle.rules.specs.Clause.{mem};
ghost use Rattle.table.specs.Limits.{base};
ghost use Rattle.table.specs.Table.{coded, distinct};
ghost use Rattle.table.specs.Stack.{lay};
ghost use Rattle.table.specs.Lent.{lent};
ghost use Rattle.table.specs.Inner.{Stamped};
ghost use Rattle.table.specs.Answer.{as_verdict};
ghost use Rattle.saved.specs.Bytes.{numbers_of};
ghost use Rattle.saved.specs.Field.{narrow};
ghost use Rattle.saved.specs.Reading.{end_tests, all_literals, all_offsets};
ghost use Rattle.saved.specs.Saved.{loaded, reading};
ghost use Rattle.saved_read.specs.Restored.{restored};
ghost use Rattle.saved_read.specs.Inner.{head_as, heads_of, kind_at, value_at, value_read, head_read, header_of, sound_on, line_on, pushed_on, count_on, row_of, handed_out, Within, Clear, Scanned};

mod known; // known.rt: what is known of a form as far as it was read

use known::{Before, Head, Part};
use stack::Opened;
use table::{Entry, Refusal, SoundTable, Stack, Table};

// How many variables, clauses and stack entries were read.
#[derive(Clone, Copy, Debug, PartialEq, Eq)]
pub struct Restored {
    pub variables: usize,
    pub clauses: usize,
    pub removals: usize,
}

// Whose line it is: that of a live clause, or of a removed one.
#[derive(Clone, Copy, Debug, PartialEq, Eq)]
enum Kind {
    Live,
    Removed,
}

impl Kind {
    // Of the line that has `left` lines after it, where the last `removals` are those of removed clauses.
    fn at(left: usize, removals: usize) -> Kind
        ensures { result ≡ kind_at left removals }
    {
        if left < removals {
            Kind::Removed
        } else {
            Kind::Live
        }
    }

    // How many numbers stand before the literals.
    fn heads(self) -> usize
        ensures { result ≡ heads_of self }
    {
        match self {
            Kind::Live => 1,
            Kind::Removed => 2,
        }
    }

    // The tag of its field.
    fn tag(self) -> u8
        ensures { result ≡ heads_of self + 1 }
    {
        match self {
            Kind::Live => 2,
            Kind::Removed => 3,
        }
    }
}

// The numbers before a line's literals: the clause's number and, of a removed clause, the blocking literal.
#[derive(Clone, Copy, Debug)]
struct Front {
    number: u16,
    block: Option<u16>,
}

// The number that has i numbers before it.
fn number_at(v: &[u8], i: usize) -> u16
    requires { 2 * i + 1 < length v.now }
    ensures { result ≡ get_or (numbers_of 2 v.now) i 0 }
{
    u16::from_be_bytes([v[2 * i], v[2 * i + 1]])
}

// The numbers of v, laid over the front of `out`: how many there are. They are taken by place, as `numbers_of` has them; `chunks_exact` and `zip` are no plainer.
fn copy_numbers(v: &[u8], out: &mut [u16]) -> usize
    requires { length (numbers_of 2 v.now) ≤ length out.old }
    ensures count { result ≡ length (numbers_of 2 v.now) }
    ensures laid { out.new ≡ lay (numbers_of 2 v.now) out.old }
{
    let count = v.len() / 2;
    for i in 0..count {
        out[i] = number_at(v, i);
    }
    count
}

// The value of the field at `at`, which is all there and has the tag: a byte of document 01's form.
fn value_at(bytes: &[u8], at: usize, tag: u8) -> Result<&[u8], Refusal>
    requires { at ≤ length bytes.now }
    ensures { value_read result ≡ value_at bytes.now at tag }
{
    let [found, high, low, rest @ ..] = &bytes[at..] else {
        return Err(Refusal::BadSaved(at));
    };
    let len = usize::from(u16::from_be_bytes([*high, *low]));
    if rest.len() < len || *found != tag {
        return Err(Refusal::BadSaved(at));
    }
    Ok(&rest[..len])
}

fn read_head(bytes: &[u8]) -> Result<Head, Refusal>
    ensures { head_read result ≡ header_of bytes.now }
{
    let value = value_at(bytes, 0, 1)?;
    if value.len() != 8 {
        return Err(Refusal::BadSaved(0));
    }
    let variables = usize::from(number_at(value, 0));
    let clauses = usize::from(number_at(value, 1));
    let literals = usize::from(number_at(value, 2));
    let removals = usize::from(number_at(value, 3));
    if 2000 < variables || 4000 < clauses || 16000 < literals {
        return Err(Refusal::OverLimit(0));
    }
    if clauses < removals {
        return Err(Refusal::BadSaved(0));
    }
    Ok(Head {
        variables,
        clauses,
        literals,
        removals,
    })
}

// Whether the literals are codes over n variables, and none stands twice. A code met is stamped k, above every stamp that was there: a literal whose stamp
// is k stands twice.
fn sound_literals(literals: &[u8], n: usize, k: u16, seen: &mut [u16]) -> bool
    requires limits { (n ≤ 2_000) × (1 ≤ k) × (length seen.old ≡ 4_002) }
    requires stamped { Stamped seen.old (k - 1) }
    ensures answer { result ≡ (every (coded n) (numbers_of 2 literals.now) && distinct (numbers_of 2 literals.now)) }
    ensures stamps { Stamped seen.new k }
{
    for i in 0..literals.len() / 2 {
        let x = usize::from(number_at(literals, i));
        if x < 2 || 2 * n + 1 < x || seen[x] == k {
            return false;
        }
        seen[x] = k;
    }
    true
}

// Whether x is among the numbers of v.
fn holds(v: &[u8], x: u16) -> bool
    ensures { result ≡ mem x (numbers_of 2 v.now) }
{
    for i in 0..v.len() / 2 {
        if number_at(v, i) == x {
            return true;
        }
    }
    false
}

// What a line's numbers say, beside the lines before it. Its literals are stamped k, above every stamp of those lines.
fn sound_line(
    value: &[u8],
    kind: Kind,
    head: &Head,
    before: &Before,
    k: u16,
    seen: &mut [u16],
) -> bool
    requires heads { 2 * heads_of kind ≤ length value.now }
    requires stamps { (1 ≤ k) × (length seen.old ≡ 4_002) }
    requires stamped { Stamped seen.old (k - 1) }
    ensures answer { result ≡ sound_on kind (head_as head.now) before.now.last before.now.parts.now (numbers_of 2 value.now) }
    ensures stamps { Stamped seen.new k }
{
    let number = number_at(value, 0);
    if number < 1 || head.clauses < usize::from(number) {
        return false;
    }
    let literals = &value[2 * kind.heads()..];
    if !sound_literals(literals, head.variables, k, seen) {
        return false;
    }
    match kind {
        Kind::Live => before.last < number,
        Kind::Removed => {
            holds(literals, number_at(value, 1)) && before.parts[usize::from(number)].is_none()
        }
    }
}

// The line that a field's value holds, read from that part of the bytes alone; the field is at `at`. Its literals are
// stamped k, above every stamp of the lines before it.
fn read_line(
    value: &[u8],
    at: usize,
    kind: Kind,
    head: &Head,
    before: &Before,
    k: u16,
    seen: &mut [u16],
) -> Result<Front, Refusal>
    requires stamps { (1 ≤ k) × (length seen.old ≡ 4_002) }
    requires stamped { Stamped seen.old (k - 1) }
    ensures answer { result ≡ line_on kind (head_as head.now) before.now.literals before.now.last before.now.parts.now value.now at }
    ensures stamps { Stamped seen.new k }
{
    let heads = kind.heads();
    if value.len() % 2 != 0 || value.len() < 2 * heads {
        return Err(Refusal::BadSaved(at));
    }
    let count = value.len() / 2 - heads;
    if 1000 < count || 16000 < before.literals + count {
        return Err(Refusal::OverLimit(at));
    }
    if !sound_line(value, kind, head, before, k, seen) {
        return Err(Refusal::BadSaved(at));
    }
    let number = number_at(value, 0);
    Ok(match kind {
        Kind::Live => Front {
            number,
            block: None,
        },
        Kind::Removed => Front {
            number,
            block: Some(number_at(value, 1)),
        },
    })
}

// A removed clause's entry behind the first `count`: how many there are then.
fn push_entry(words: &mut [u32], count: usize, front: Front) -> usize
    requires { (2 * count + 1 < length words.old) × (count ≤ 4_000) }
    ensures { (result ≡ count_on front count) × (words.new ≡ pushed_on front count words.old) }
{
    match front.block {
        None => count,
        Some(block) => {
            let entry = Entry {
                clause: u32::from(front.number),
                literal: u32::from(block),
            };
            entry.push_on(words, count);
            count + 1
        }
    }
}

// The end field, after so many literals.
fn read_end(bytes: &[u8], at: usize, head: &Head, literals: usize) -> Result<(), Refusal>
    requires { at ≤ length bytes.now }
    ensures { result ≡ as_verdict (end_tests base narrow (head_as head.now) literals (drop at bytes.now) at) }
{
    let value = value_at(bytes, at, 127)?;
    if !value.is_empty() || literals != head.literals {
        return Err(Refusal::BadSaved(at));
    }
    if at + 3 < bytes.len() {
        return Err(Refusal::BadSaved(at + 3));
    }
    Ok(())
}

// Every clause's field tested, the part of the bytes with its literals remembered by its number, and the stack's words laid down; then the end. The answer
// is how many entries there are.
fn scan_lines(
    bytes: &[u8],
    head: &Head,
    parts: &mut [Option<Part>],
    words: &mut [u32],
) -> Result<usize, Refusal>
    requires { Clear bytes.now parts.old words.old }
    ensures { Scanned bytes.now (head_as head.now) parts.new words.new result }
{
    let mut seen = [0u16; 4002];
    let mut last = 0;
    let mut total = 0;
    let mut at = 11;
    let mut count = 0;
    for read in 0..head.clauses {
        let kind = Kind::at(head.clauses - read - 1, head.removals);
        let value = value_at(bytes, at, kind.tag())?;
        let before = Before {
            last,
            literals: total,
            parts,
        };
        let front = read_line(value, at, kind, head, &before, (read + 1) as u16, &mut seen)?;
        let heads = kind.heads();
        let next = at + 3 + value.len();
        count = push_entry(words, count, front);
        parts[usize::from(front.number)] = Some(Part {
            from: (at + 3 + 2 * heads) as u16,
            to: next as u16,
        });
        last = front.number;
        total += value.len() / 2 - heads;
        at = next;
    }
    read_end(bytes, at, head, total)?;
    Ok(count)
}

// The part of the bytes that holds the literals of clause k, empty where none is remembered.
fn part_at<'a>(bytes: &'a [u8], parts: &[Option<Part>], k: usize) -> &'a [u8]
    requires within { Within bytes.now parts.now }
    requires there { k < length parts.now }
    ensures { numbers_of 2 result.now ≡ row_of bytes.now parts.now k }
{
    match parts[k] {
        Some(part) => &bytes[usize::from(part.from)..usize::from(part.to)],
        None => &[],
    }
}

// The clauses 1 to m from the parts remembered, in compressed rows: how many literals there are.
fn fill_rows(
    bytes: &[u8],
    parts: &[Option<Part>],
    m: usize,
    lits: &mut [u16],
    offs: &mut [u32],
) -> usize
    requires within { Within bytes.now parts.now }
    requires clauses_fit { (m < length parts.now) × (m < length offs.old) }
    requires literals_fit { (length (all_literals (row_of bytes.now parts.now) m) ≤ length lits.old) × (length lits.old ≤ 16_000) }
    ensures count { result ≡ length (all_literals (row_of bytes.now parts.now) m) }
    ensures lits { lits.new ≡ lay (all_literals (row_of bytes.now parts.now) m) lits.old }
    ensures offs { offs.new ≡ lay (all_offsets (row_of bytes.now parts.now) m) offs.old }
{
    offs[0] = 0;
    let mut at = 0;
    for k in 0..m {
        let part = part_at(bytes, parts, k + 1);
        at += copy_numbers(part, &mut lits[at..]);
        offs[k + 1] = at as u32;
    }
    at
}

// A table and its stack handed out, unless an entry's literal does not block.
fn hand_out(
    opened: &Opened,
    lits: &mut [u16],
    offs: &mut [u32],
    stack: &mut [u32],
) -> Result<Restored, Refusal>
    requires lits { length opened.now.book.table.lits.now ≤ length lits.old }
    requires offs { length opened.now.book.table.offs.now ≤ length offs.old }
    requires stack { 2 * opened.now.stack.count ≤ length stack.old }
    ensures { loaded (restored result) lits.new offs.new stack.new ≡ handed_out (lent opened.now.book.table) opened.now.stack.words.now opened.now.stack.count lits.old offs.old stack.old }
{
    let mut live = [false; 4001];
    opened.check_entries(&mut live)?;
    let t = opened.book.table;
    let removals = opened.stack.count;
    lits[..t.lits.len()].copy_from_slice(t.lits);
    offs[..t.offs.len()].copy_from_slice(t.offs);
    stack[..2 * removals].copy_from_slice(&opened.stack.words[..2 * removals]);
    Ok(Restored {
        variables: t.variables,
        clauses: t.clauses,
        removals,
    })
}

// The table and the stack of a saved form, at the fronts of the three lent buffers.
pub fn read_saved(
    bytes: &[u8],
    lits: &mut [u16],
    offs: &mut [u32],
    stack: &mut [u32],
) -> Result<Restored, Refusal>
    ensures { loaded (restored result) lits.new offs.new stack.new ≡ reading base narrow bytes.now lits.old offs.old stack.old }
{
    if lits.len() < 16000 || offs.len() < 4001 || stack.len() < 8000 {
        return Err(Refusal::NoRoom);
    }
    let head = read_head(bytes)?;
    let mut parts = [None; 4001];
    let mut words = [0u32; 8000];
    let count = scan_lines(bytes, &head, &mut parts, &mut words)?;
    let mut rows = [0u16; 16000];
    let mut ends = [0u32; 4001];
    let literals = fill_rows(bytes, &parts, head.clauses, &mut rows, &mut ends);
    let table = Table {
        variables: head.variables,
        clauses: head.clauses,
        lits: &rows[..literals],
        offs: &ends[..head.clauses + 1],
    };
    let stored = Stack {
        words: &words,
        count,
    };
    let opened = Opened {
        book: SoundTable { table },
        stack: stored,
    };
    hand_out(&opened, lits, offs, stack)
}
