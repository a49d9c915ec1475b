// The test of one literal, through an occurrence index: for each literal the clauses that hold it, rising, as a chain through the literals' places.
#![tactic(auto)]

ghost use Rattle.std.specs.Prelude.{◌≡◌, true, false, ℕ, ◌-◌, ◌≤◌, ◌<◌, length, get_or};
ghost use Rattle.rules.specs.Walk.{found};
ghost use Rattle.rules.specs.Clause.{mem, tautology};
ghost use Rattle.rules.specs.Blocking.{literal};
ghost use Rattle.rules.specs.Book.{one_to, bars, obstacle};
ghost use Rattle.rules.specs.Elimination.{first_reason, turn};
ghost use Rattle.table.specs.Limits.{base};
ghost use Rattle.table.specs.Lent.{lent};
ghost use Rattle.table.specs.Table.{row, book_of, sound_clause};
ghost use Rattle.table.specs.Inner.{Stamped};
ghost use Rattle.index.specs.Index.{live_of, holder_above, Indexed, Plain, OwnMarks, entry_of};
ghost use Rattle.index.specs.Inner.{Linking, Told};

use table::SoundTable;

// Marks of the live clauses, by their numbers, with room for the 4,000 that a sound table has at most.
pub type Marks = [bool; 4001];

// Marks the clauses 1 to m live, and no other.
pub fn mark_all(m: usize, live: &mut [bool])
    requires { m < length live.old }
    ensures { live_of live.new ≡ one_to m }
{
    live.fill(false);
    for k in 0..m {
        live[k + 1] = true;
    }
}

// Puts clause k at the head of the chain of each of its literals. (`next_holder` goes through the same stretch: the two share no more than its ends.)
fn link_row(t: &SoundTable, heads: &mut [u16], nexts: &mut [u16], k: usize)
    requires named { (1 ≤ k) × (k ≤ t.now.table.clauses) }
    requires linking { Linking (lent t.now.table) heads.old nexts.old k }
    ensures { Linking (lent t.now.table) heads.new nexts.new (k - 1) }
{
    let from = t.table.offs[k - 1] as usize;
    let end = t.table.offs[k] as usize;
    for p in from..end {
        let x = t.table.lits[p] as usize;
        nexts[p] = heads[x];
        heads[x] = k as u16;
    }
}

// Links the clauses of a sound table, from the last to the first, in buffers that hold zeros.
fn link_rows(t: &SoundTable, heads: &mut [u16], nexts: &mut [u16])
    requires unlinked { (length heads.old ≡ 4002) × (length nexts.old ≡ 16000) × ((x : ℕ) → get_or heads.old x 0 ≡ 0) }
    ensures { Indexed (lent t.now.table) heads.new nexts.new }
{
    for k in (0..t.table.clauses).rev() {
        link_row(t, heads, nexts, k + 1);
    }
}

// Whether the clause is marked plain: then it is no tautology. `table::clause_sound` stamps in the same way; one loop for both would need a closure that
// reads the stamps and tells a clash from a repetition, which is no plainer. A code met in it is stamped k, above every stamp that was there: a literal whose
// negation's stamp is k clashes.
fn clause_plain(n: usize, c: &[u16], k: u16, seen: &mut [u16]) -> bool
    requires limits { (n ≤ 2000) × (1 ≤ k) × (length seen.old ≡ 4002) }
    requires clause_sound { sound_clause base n c.now ≡ true }
    requires stamped { Stamped seen.old (k - 1) }
    ensures { Told c.now k seen.new result }
{
    for x in c {
        let at = *x as usize;
        let z = rules::negated(*x) as usize;
        if seen[z] == k {
            return false;
        }
        seen[at] = k;
    }
    true
}

// Marks the plain clauses of a sound table: those that are no tautologies. (`Table::clauses_sound` goes through the clauses too, but stops at the first.) It
// is not inlined, so that its stamps are on the machine's stack neither beside those of the soundness test nor after the index is built.
#[inline(never)]
fn mark_plain(t: &SoundTable, plain: &mut [bool])
    requires room { t.now.table.clauses < length plain.old }
    ensures { Plain (lent t.now.table) plain.new }
{
    let mut seen = [0u16; 4002];
    for k in 0..t.table.clauses {
        let c = t.row(k + 1);
        plain[k + 1] = clause_plain(t.table.variables, c, (k + 1) as u16, &mut seen);
    }
}

// A link of a chain as the number of a clause: 0 is the chain's end.
fn linked(link: u16) -> Option<usize>
    ensures { result ≡ found link }
{
    if link == 0 { None } else { Some(link as usize) }
}

// What the test of one literal reads besides the marks of the live clauses: a sound table, its occurrence index, and the marks of its plain clauses. The
// chains are clause numbers in arrays of fixed size, since there is no heap. The marks of the live clauses and a clause's number stay parameters, with clauses of
// their own: both change from call to call, and a type for either would hold the table once more.
#[derive(Clone, Copy, Debug)]
pub struct Index<'l, 'o, 'a> {
    pub book: SoundTable<'l, 'o>,
    pub heads: &'a [u16],
    pub nexts: &'a [u16],
    pub plain: &'a [bool],
    pub ghost indexed: { Indexed (lent book.table) heads.now nexts.now },
    pub ghost plains: { Plain (lent book.table) plain.now },
}

impl<'l, 'o, 'a> Index<'l, 'o, 'a> {
    // Builds the index of a sound table in buffers that hold zeros, and marks its plain clauses. Each caller has the three arrays of its own: there is no
    // heap, and a function that made them would hand 44,005 bytes over by a copy.
    pub fn build(
        t: &SoundTable<'l, 'o>,
        heads: &'a mut [u16],
        nexts: &'a mut [u16],
        plain: &'a mut [bool],
    ) -> Index<'l, 'o, 'a>
        requires unlinked { (length heads.old ≡ 4002) × (length nexts.old ≡ 16000) × ((x : ℕ) → get_or heads.old x 0 ≡ 0) }
        requires room { t.now.table.clauses < length plain.old }
        ensures { result.book ≡ t.now }
    {
        link_rows(t, heads, nexts);
        mark_plain(t, plain);
        Index {
            book: *t,
            heads,
            nexts,
            plain,
        }
    }

    // The lowest clause that holds x.
    fn first_holder(&self, x: u16) -> Option<usize>
        requires { x < 4002 }
        ensures { result ≡ found (holder_above (lent self.now.book.table) x 0) }
    {
        linked(self.heads[x as usize])
    }

    // The next clause above clause k that holds x, a literal of clause k.
    fn next_holder(&self, k: usize, x: u16) -> Option<usize>
        requires named { (1 ≤ k) × (k ≤ self.now.book.table.clauses) }
        requires held { mem x (row (lent self.now.book.table) k) ≡ true }
        ensures { result ≡ found (holder_above (lent self.now.book.table) x k) }
    {
        let from = self.book.table.offs[k - 1] as usize;
        let end = self.book.table.offs[k] as usize;
        for p in from..end {
            if self.book.table.lits[p] == x {
                return linked(self.nexts[p]);
            }
        }
        None
    }

    // Whether clause j is live and keeps l from blocking c; `easy` says that c is known to be plain, which is read once for all clauses j.
    fn bars(&self, live: &[bool], c: &[u16], easy: bool, l: u16, j: usize) -> bool
        requires plain { easy ≡ true → tautology c.now ≡ false }
        requires named { (self.now.book.table.clauses < length live.now) × (1 ≤ j) × (j ≤ self.now.book.table.clauses) }
        ensures { result ≡ bars literal (book_of (lent self.now.book.table)) (live_of live.now) c.now l j }
    {
        if !live[j] {
            return false;
        }
        let d = self.book.row(j);
        if easy && self.plain[j] {
            return rules::hinders_plain(c, l, d);
        }
        rules::hinders(c, l, d)
    }

    // The test of one literal l of clause k: none where it blocks the clause among the live ones, else the lowest live clause that prevents it. It reads
    // only the clauses that hold the negation of l.
    pub fn test_literal(&self, live: &[bool], k: usize, l: u16) -> Option<usize>
        requires live { OwnMarks (lent self.now.book.table) live.now }
        requires named { (1 ≤ k) × (k ≤ self.now.book.table.clauses) }
        requires held { mem l (row (lent self.now.book.table) k) ≡ true }
        ensures { result ≡ found (obstacle literal (book_of (lent self.now.book.table)) (live_of live.now) k l) }
    {
        let c = self.book.row(k);
        let easy = self.plain[k];
        let z = rules::negated(l);
        let mut next = self.first_holder(z);
        while let Some(j) = next {
            if self.bars(live, c, easy, l, j) {
                return Some(j);
            }
            next = self.next_holder(j, z);
        }
        None
    }

    // The first literal of clause k, in stored order, that blocks it among the live clauses.
    fn first_blocking(&self, live: &[bool], k: usize) -> Option<u16>
        requires live { OwnMarks (lent self.now.book.table) live.now }
        requires named { (1 ≤ k) × (k ≤ self.now.book.table.clauses) }
        ensures { entry_of k result ≡ first_reason literal (book_of (lent self.now.book.table)) (live_of live.now) k (row (lent self.now.book.table) k) }
    {
        let c = self.book.row(k);
        for l in c {
            if self.test_literal(live, k, *l).is_none() {
                return Some(*l);
            }
        }
        None
    }

    // The turn of clause k: the first literal that blocks it, if it is live.
    pub fn turn_of(&self, live: &[bool], k: usize) -> Option<u16>
        requires live { OwnMarks (lent self.now.book.table) live.now }
        requires named { (1 ≤ k) × (k ≤ self.now.book.table.clauses) }
        ensures { entry_of k result ≡ turn literal (book_of (lent self.now.book.table)) (live_of live.now) k }
    {
        if live[k] {
            return self.first_blocking(live, k);
        }
        None
    }
}
