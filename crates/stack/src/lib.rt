// A lent stack: its entries read into marks of the live clauses, and the stack check.
#![tactic(auto)]

ghost use Rattle.std.specs.Prelude.{◌≡◌, true, ℕ, ◌≤◌, ◌<◌, length, MatchResult};
ghost use Rattle.std.proofs.Math.Option.{some};
ghost use Rattle.table.specs.Limits.{base};
ghost use Rattle.table.specs.Lent.{lent};
ghost use Rattle.table.specs.Answer.{verdict};
ghost use Rattle.index.specs.Index.{live_of};
ghost use Rattle.stack.specs.Tests.{entry_names, lent_tests, blocking_tests, check};
ghost use Rattle.stack.specs.Inner.{Lent, Read, Checked, Blocking, Passed, Opens};

use index::Index;
use table::{Entry, Refusal, SoundTable, Stack, Table};

// Whether an entry names a live clause and a literal of it.
pub fn entry_names(t: &SoundTable, live: &[bool], entry: Entry) -> bool
    requires { (k : ℕ) → live_of live.now k ≡ true → (1 ≤ k) × (k ≤ t.now.table.clauses) }
    ensures { result ≡ entry_names (lent t.now.table) (live_of live.now) (entry.clause, entry.literal) }
{
    let k = entry.clause as usize;
    if k < live.len() && live[k] {
        return rules::contains_word(t.row(k), entry.literal);
    }
    false
}

// The number of the first bad entry, from 1; where there is none, what is live after the entries is marked.
fn bad_entry(t: &SoundTable, stack: &Stack, live: &mut [bool]) -> Option<usize>
    requires { Lent (lent t.now.table) stack.now.words.now stack.now.count live.old }
    ensures { Read (lent t.now.table) stack.now.words.now stack.now.count live.new result }
{
    for i in 0..stack.count {
        let entry = stack.entry(i);
        if !entry_names(t, live, entry) {
            return Some(i + 1);
        }
        live[entry.clause as usize] = false;
    }
    None
}

// A sound table with a stack that passed the tests that come first: each entry names a clause that is live at that time, and a literal of it.
#[derive(Clone, Copy, Debug)]
pub struct Opened<'l, 'o, 's> {
    pub book: SoundTable<'l, 'o>,
    pub stack: Stack<'s>,
    pub ghost passed: { Passed (lent book.table) stack.words.now stack.count },
}

impl Opened<'_, '_, '_> {
    // The number of the first entry, from 1, whose literal does not block its clause among those live at that time; where there is none, what is live after
    // the entries is marked. The index is built, and every clause is marked live. It goes through the entries as `bad_entry` does; one loop
    // for both would need a closure that says what each asks of the marks, which is no plainer.
    fn unblocked_entry(&self, index: &Index, live: &mut [bool]) -> Option<usize>
        requires same { index.now.book ≡ self.now.book }
        requires lent { Lent (lent self.now.book.table) self.now.stack.words.now self.now.stack.count live.old }
        ensures { Checked (lent self.now.book.table) self.now.stack.words.now self.now.stack.count live.new result }
    {
        for i in 0..self.stack.count {
            let entry = self.stack.entry(i);
            let k = entry.clause as usize;
            if index.test_literal(live, k, entry.literal as u16).is_some() {
                return Some(i + 1);
            }
            live[k] = false;
        }
        None
    }

    // The test 6: every entry's literal blocks its clause among those live at that time. Where it passes, what is live after the entries is marked.
    pub fn check_entries(&self, live: &mut [bool]) -> Result<(), Refusal>
        requires { self.now.book.table.clauses < length live.old }
        ensures { MatchResult result (λ _. Blocking (lent self.now.book.table) self.now.stack.words.now self.now.stack.count live.new)
            (λ r. blocking_tests (lent self.now.book.table) self.now.stack.words.now self.now.stack.count ≡ some r) }
    {
        let mut heads = [0u16; 4002];
        let mut nexts = [0u16; 16000];
        let mut plain = [false; 4001];
        let index = Index::build(&self.book, &mut heads, &mut nexts, &mut plain);
        index::mark_all(self.book.table.clauses, live);
        match self.unblocked_entry(&index, live) {
            Some(entry) => Err(Refusal::NotBlocking(entry)),
            None => Ok(()),
        }
    }
}

// The tests that come first in every call on a table with a stack, in their order: the table is sound, the stack has room, so has any other buffer
// of the call, as `room` says, and the count and the entries are good. Where all pass, what is live after the entries is marked. The marks are lent: an
// `Opened` that held them would be copied with their 4,001 bytes. `room` is what the caller found of its own buffer, and is told here since 3 comes before 5.
pub fn open_stack<'l, 'o, 's>(
    t: &Table<'l, 'o>,
    stack: &Stack<'s>,
    room: bool,
    live: &mut [bool],
) -> Result<Opened<'l, 'o, 's>, Refusal>
    requires { 4000 < length live.old }
    ensures { MatchResult result (λ o. Opens t.now stack.now room live.new o.book.table o.stack) (λ r. lent_tests base (lent t.now) stack.now.words.now stack.now.count room ≡ some r) }
{
    let book = t.checked()?;
    if stack.words.len() < 2 * t.clauses || !room {
        return Err(Refusal::NoRoom);
    }
    if t.clauses < stack.count {
        return Err(Refusal::BadStack(0));
    }
    index::mark_all(t.clauses, live);
    match bad_entry(&book, stack, live) {
        Some(bad) => Err(Refusal::BadStack(bad)),
        None => Ok(Opened {
            book,
            stack: *stack,
        }),
    }
}

// The stack check: whether every entry names a live clause with a literal that blocks it among those live at that time.
pub fn check_stack(t: &Table, stack: &Stack) -> Result<(), Refusal>
    ensures { verdict result ≡ check base (lent t.now) stack.now.words.now stack.now.count }
{
    let mut live = [false; 4001];
    let opened = open_stack(t, stack, true, &mut live)?;
    opened.check_entries(&mut live)
}
