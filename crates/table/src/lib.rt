// A table as it lies in lent memory: the refusals, the soundness test, and a clause's literals handed out; and a lent stack's entries.
#![tactic(auto)]

ghost use Rattle.std.specs.Prelude.{◌≡◌, true, false, MatchResult, ◌+◌, ◌-◌, ◌*◌, ◌≤◌, ◌<◌, length, get_or};
ghost use Rattle.table.specs.Limits.{base};
ghost use Rattle.rules.specs.Walk.{every_to};
ghost use Rattle.table.specs.Table.{offset, row, sound, sound_row, rises, coded, handed_out, handed_from};
ghost use Rattle.table.specs.Lent.{lent};
ghost use Rattle.table.specs.Stack.{push};
ghost use Rattle.table.specs.Inner.{Shape, Stretch, ends_sound, Stamped, Tested};
ghost use Rattle.table.specs.declared.Refusal.TheVariants.{BadTable};

use std::fmt;

// Why a call is refused, with its place (document 01, 'Refusal numbers').
#[derive(Clone, Copy, Debug, PartialEq, Eq)]
pub enum Refusal {
    BadText(usize),
    OverLimit(usize),
    NoRoom,
    BadTable,
    BadStack(usize),
    NotBlocking(usize),
    BadName,
    BadValues(usize),
    NotModel(usize),
    BadSaved(usize),
}

// A refusal's number and place, as document 01's table has them.
#[derive(Clone, Copy, Debug, PartialEq, Eq)]
pub struct Numbered {
    pub number: usize,
    pub place: usize,
}

impl From<Refusal> for Numbered {
    ghost use Rattle.table.specs.Answer.{refused, paper};

    ghost from_gives = { λ r told. refused told.number told.place ≡ paper r };

    fn from(r: Refusal) -> Numbered {
        match r {
            Refusal::BadText(place) => Numbered { number: 1, place },
            Refusal::OverLimit(place) => Numbered { number: 2, place },
            Refusal::NoRoom => Numbered {
                number: 3,
                place: 0,
            },
            Refusal::BadTable => Numbered {
                number: 4,
                place: 0,
            },
            Refusal::BadStack(place) => Numbered { number: 5, place },
            Refusal::NotBlocking(place) => Numbered { number: 6, place },
            Refusal::BadName => Numbered {
                number: 7,
                place: 0,
            },
            Refusal::BadValues(place) => Numbered { number: 8, place },
            Refusal::NotModel(place) => Numbered { number: 9, place },
            Refusal::BadSaved(place) => Numbered { number: 10, place },
        }
    }
}

impl fmt::Display for Refusal {
    fn fmt<W: fmt::Write>(&self, f: &mut fmt::Formatter<W>) -> fmt::Result {
        let Numbered { number, place } = Numbered::from(*self);
        write!(f, "refused {number} at {place}")
    }
}

// A table as it is lent: how many variables and clauses it has, and the two buffers that hold its clauses in compressed rows. Each buffer has a lifetime of
// its own: a clause's literals stay lent where the offsets are no more.
#[derive(Clone, Copy, Debug)]
pub struct Table<'l, 'o> {
    pub variables: usize,
    pub clauses: usize,
    pub lits: &'l [u16],
    pub offs: &'o [u32],
}

impl<'l, 'o> Table<'l, 'o> {
    // The stretch of clause k.
    pub fn row(&self, k: usize) -> &'l [u16]
        requires shape { Shape (lent self.now) }
        requires named { (1 ≤ k) × (k ≤ self.now.clauses) }
        ensures { Stretch result self.now.lits (row (lent self.now) k) (offset (lent self.now) (k - 1)) }
    {
        let a = self.offs[k - 1] as usize;
        let e = self.offs[k] as usize;
        &self.lits[a..e]
    }

    // Whether the counts are within the limits, and the offsets there, from 0 to an end within the literals.
    fn ends_sound(&self) -> bool
        ensures { result ≡ ends_sound base (lent self.now) }
    {
        if self.variables > 2000 || self.clauses > 4000 || self.offs.len() <= self.clauses {
            return false;
        }
        let e = self.offs[self.clauses] as usize;
        self.offs[0] == 0 && e <= 16000 && e <= self.lits.len()
    }

    // Whether no offset is smaller than the one before.
    fn offsets_rise(&self) -> bool
        requires { self.now.clauses < length self.now.offs.now }
        ensures { result ≡ every_to (rises (lent self.now)) self.now.clauses }
    {
        for k in 0..self.clauses {
            if self.offs[k + 1] < self.offs[k] {
                return false;
            }
        }
        true
    }

    // Whether every clause is sound.
    fn clauses_sound(&self) -> bool
        requires shape { Shape (lent self.now) }
        requires limits { (self.now.variables ≤ 2000) × (self.now.clauses ≤ 4000) }
        ensures { result ≡ every_to (sound_row base (lent self.now)) self.now.clauses }
    {
        let mut seen = [0u16; 4002];
        for k in 0..self.clauses {
            let c = self.row(k + 1);
            if !clause_sound(self.variables, c, (k + 1) as u16, &mut seen) {
                return false;
            }
        }
        true
    }

    // Whether the table is sound.
    pub fn is_sound(&self) -> bool
        ensures { result ≡ sound base (lent self.now) }
    {
        self.ends_sound() && self.offsets_rise() && self.clauses_sound()
    }

    // The table as a sound one, or why it is refused.
    pub fn checked(&self) -> Result<SoundTable<'l, 'o>, Refusal>
        ensures { MatchResult result (λ s. s.table ≡ self.now) (λ r. (r ≡ BadTable) × (sound base (lent self.now) ≡ false)) }
    {
        if self.is_sound() {
            Ok(SoundTable { table: *self })
        } else {
            Err(Refusal::BadTable)
        }
    }

    // A clause's literals, as the very stretch of the lent literal buffer: the empty part of it for an unsound table or a number outside 1 to m.
    pub fn clause_literals(&self, k: usize) -> &'l [u16]
        ensures { Stretch result self.now.lits (handed_out base (lent self.now) k) (handed_from base (lent self.now) k) }
    {
        if self.is_sound() && 1 <= k && k <= self.clauses {
            return self.row(k);
        }
        &self.lits[0..0]
    }
}

// A sound table.
#[derive(Clone, Copy, Debug)]
pub struct SoundTable<'l, 'o> {
    pub table: Table<'l, 'o>,
    pub ghost sound: { sound base (lent table) ≡ true },
}

impl<'l, 'o> SoundTable<'l, 'o> {
    // The stretch of clause k.
    pub fn row(&self, k: usize) -> &'l [u16]
        requires { (1 ≤ k) × (k ≤ self.now.table.clauses) }
        ensures { Stretch result self.now.table.lits (row (lent self.now.table) k) (offset (lent self.now.table) (k - 1)) }
    {
        self.table.row(k)
    }
}

// Whether x is the code of a variable from 1 to n or of its negation.
fn is_coded(n: usize, x: u16) -> bool
    requires { n ≤ 2000 }
    ensures { result ≡ coded n x }
{
    2 <= x && x as usize <= 2 * n + 1
}

// Whether the clause is sound. A code met in it is stamped k, above every stamp that was there: a literal whose stamp is k stands twice.
fn clause_sound(n: usize, c: &[u16], k: u16, seen: &mut [u16]) -> bool
    requires limits { (n ≤ 2000) × (1 ≤ k) × (length seen.old ≡ 4002) }
    requires stamped { Stamped seen.old (k - 1) }
    ensures { Tested n c.now k seen.new result }
{
    if 1000 < c.len() {
        return false;
    }
    for x in c {
        if !is_coded(n, *x) {
            return false;
        }
        let at = *x as usize;
        if seen[at] == k {
            return false;
        }
        seen[at] = k;
    }
    true
}

// An entry of a stack: the clause that was removed, and the literal that blocked it.
#[derive(Clone, Copy, Debug, PartialEq, Eq)]
pub struct Entry {
    pub clause: u32,
    pub literal: u32,
}

impl Entry {
    // Puts the entry on a stack, behind its first `count`.
    #[tactic(auto, unfolding(crate::specs::Stack::push))]
    pub fn push_on(self, words: &mut [u32], count: usize)
        requires { 2 * count + 1 < length words.old }
        ensures { words.new ≡ push words.old count self.clause self.literal }
    {
        words[2 * count] = self.clause;
        words[2 * count + 1] = self.literal;
    }
}

// A stack as it is lent: words, two for each entry, and the count of entries.
#[derive(Clone, Copy, Debug)]
pub struct Stack<'a> {
    pub words: &'a [u32],
    pub count: usize,
}

impl Stack<'_> {
    // The entry with i entries before it.
    pub fn entry(&self, i: usize) -> Entry
        requires { 2 * i + 1 < length self.now.words.now }
        ensures clause { result.clause ≡ get_or self.now.words.now (2 * i) 0 }
        ensures literal { result.literal ≡ get_or self.now.words.now (2 * i + 1) 0 }
    {
        Entry {
            clause: self.words[2 * i],
            literal: self.words[2 * i + 1],
        }
    }
}
