// Blocked clause elimination: the removal of every clause that can go, of one named clause, and the question which clause can go next. A stack that is
// written is its words with the count beside them, as C lends it: the room behind the count is part of it.
#![tactic(auto)]

ghost use Rattle.std.specs.Prelude.{◌≡◌, true, not, suc, ◌≤◌};
ghost use Rattle.rules.specs.Clause.{mem};
ghost use Rattle.rules.specs.Blocking.{literal};
ghost use Rattle.rules.specs.Book.{blocks};
ghost use Rattle.rules.specs.Elimination.{turn, turns, sweeps, next_blocked};
ghost use Rattle.table.specs.Limits.{base};
ghost use Rattle.table.specs.Lent.{lent};
ghost use Rattle.table.specs.Table.{row, book_of};
ghost use Rattle.table.specs.Answer.{outcome};
ghost use Rattle.index.specs.Index.{live_of, entry_of, OwnMarks};
ghost use Rattle.stack.specs.Inner.{Open};
ghost use Rattle.removal.specs.Removal.{counted, listed, next_reply, elimination, removal, question};
ghost use Rattle.removal.specs.Inner.{Roomy, Made};

use index::Index;
use table::{Entry, Refusal, SoundTable, Stack, Table};

// Where elimination works: the index of the table, the marks of what is live, and the stack with the count of its entries. There is room for every
// clause that is still live.
#[derive(Drop)]
struct Desk<'l, 'o, 'a, 's> {
    index: Index<'l, 'o, 'a>,
    live: &'s mut [bool],
    stack: &'s mut [u32],
    count: usize,
    ghost room: { Roomy (lent index.book.table) live.now stack.now count },
}

impl Desk<'_, '_, '_, '_> {
    // The first literal that blocks clause k, if it is live.
    fn turn(&self, k: usize) -> Option<u16>
        requires { (1 ≤ k) × (k ≤ self.now.index.book.table.clauses) }
        ensures { entry_of k result ≡ turn literal (book_of (lent self.now.index.book.table)) (live_of self.now.live.now) k }
    {
        self.index.turn_of(self.live, k)
    }

    // The turn of clause k: where it is live and blocked, it goes on the stack at once.
    fn take_turn(&mut self, k: usize)
        requires { (1 ≤ k) × (k ≤ self.old.index.book.table.clauses) }
        ensures index { self.new.index ≡ self.old.index }
        ensures made { Made (turn literal (book_of (lent self.old.index.book.table)) (live_of self.old.live.now) k) self.old.live.now self.old.stack.now self.old.count self.new.live.now self.new.stack.now self.new.count }
        ensures same_lend { self.new.stack.ghost_name ≡ self.old.stack.ghost_name }
    {
        if let Some(l) = self.turn(k) {
            self.live[k] = false;
            let entry = Entry {
                clause: k as u32,
                literal: l as u32,
            };
            entry.push_on(self.stack, self.count);
            self.count += 1;
        }
    }

    // One sweep: the turns of the clauses 1 to m.
    fn sweep(&mut self)
        ensures index { self.new.index ≡ self.old.index }
        ensures made { Made (turns literal (book_of (lent self.old.index.book.table)) (live_of self.old.live.now) self.old.index.book.table.clauses) self.old.live.now self.old.stack.now self.old.count self.new.live.now self.new.stack.now self.new.count }
        ensures same_lend { self.new.stack.ghost_name ≡ self.old.stack.ghost_name }
    {
        for k in 0..self.index.book.table.clauses {
            self.take_turn(k + 1);
        }
    }

    // Sweeps until one removes nothing.
    fn sweep_all(&mut self)
        requires { self.old.count ≡ 0 }
        ensures made { Made (sweeps literal (book_of (lent self.old.index.book.table)) (suc self.old.index.book.table.clauses) (live_of self.old.live.now)) self.old.live.now self.old.stack.now 0 self.new.live.now self.new.stack.now self.new.count }
        ensures same_lend { self.new.stack.ghost_name ≡ self.old.stack.ghost_name }
    {
        loop {
            let before = self.count;
            self.sweep();
            if self.count == before {
                return;
            }
        }
    }
}

// Elimination from an empty stack: the removals on the stack, oldest first, and their count.
pub fn eliminate(t: &Table, stack: &mut [u32]) -> Result<usize, Refusal>
    ensures { outcome (counted result) stack.new ≡ elimination base (lent t.now) stack.old }
{
    let book = t.checked()?;
    if stack.len() < 2 * t.clauses {
        return Err(Refusal::NoRoom);
    }
    let mut live = [false; 4001];
    index::mark_all(t.clauses, &mut live);
    let mut heads = [0u16; 4002];
    let mut nexts = [0u16; 16000];
    let mut plain = [false; 4001];
    let index = Index::build(&book, &mut heads, &mut nexts, &mut plain);
    let mut desk = Desk {
        index,
        live: &mut live,
        stack,
        count: 0,
    };
    desk.sweep_all();
    let count = desk.count;
    Ok(count)
}

// Whether some live clause keeps the literal l of clause k from blocking it.
fn prevented(t: &SoundTable, live: &[bool], k: usize, l: u16) -> bool
    requires live { OwnMarks (lent t.now.table) live.now }
    requires named { (1 ≤ k) × (k ≤ t.now.table.clauses) }
    requires held { mem l (row (lent t.now.table) k) ≡ true }
    ensures { result ≡ not (blocks literal (book_of (lent t.now.table)) (live_of live.now) k l) }
{
    let mut heads = [0u16; 4002];
    let mut nexts = [0u16; 16000];
    let mut plain = [false; 4001];
    let index = Index::build(t, &mut heads, &mut nexts, &mut plain);
    index.test_literal(live, k, l).is_some()
}

// The removal of the clause that is named, from an open stack.
fn remove_named(
    t: &SoundTable,
    live: &[bool],
    stack: &mut [u32],
    count: usize,
    entry: Entry,
) -> Result<usize, Refusal>
    requires { Open (lent t.now.table) stack.old count live.now }
    ensures { outcome (counted result) stack.new ≡ removal base (lent t.now.table) stack.old count entry.clause entry.literal }
{
    if !stack::entry_names(t, live, entry) {
        return Err(Refusal::BadName);
    }
    let k = entry.clause as usize;
    if prevented(t, live, k, entry.literal as u16) {
        return Err(Refusal::NotBlocking(k));
    }
    entry.push_on(stack, count);
    Ok(count + 1)
}

// The removal of one clause by a literal that blocks it: one entry more on the stack.
pub fn remove(t: &Table, stack: &mut [u32], count: usize, entry: Entry) -> Result<usize, Refusal>
    ensures { outcome (counted result) stack.new ≡ removal base (lent t.now) stack.old count entry.clause entry.literal }
{
    let mut live = [false; 4001];
    let old = Stack {
        words: stack,
        count,
    };
    let book = stack::open_stack(t, &old, true, &mut live)?.book;
    remove_named(&book, &live, stack, count, entry)
}

// The lowest clause that is live and blocked, with its first blocking literal.
fn lowest_blocked(index: &Index, live: &[bool]) -> Option<Entry>
    requires { OwnMarks (lent index.now.book.table) live.now }
    ensures { listed result ≡ next_blocked literal (book_of (lent index.now.book.table)) (live_of live.now) index.now.book.table.clauses }
{
    for k in 0..index.book.table.clauses {
        if let Some(l) = index.turn_of(live, k + 1) {
            return Some(Entry {
                clause: (k + 1) as u32,
                literal: l as u32,
            });
        }
    }
    None
}

// The question which clause can go next.
pub fn next_blocked(t: &Table, stack: &Stack) -> Result<Option<Entry>, Refusal>
    ensures { next_reply result ≡ question base (lent t.now) stack.now.words.now stack.now.count }
{
    let mut live = [false; 4001];
    let opened = stack::open_stack(t, stack, true, &mut live)?;
    let mut heads = [0u16; 4002];
    let mut nexts = [0u16; 16000];
    let mut plain = [false; 4001];
    let index = Index::build(&opened.book, &mut heads, &mut nexts, &mut plain);
    Ok(lowest_blocked(&index, &live))
}
