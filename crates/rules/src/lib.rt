// Literals and clauses: the leaves on which every test of a rule book stands. A clause is a stretch of 16-bit literal codes.
#![tactic(auto)]

ghost use Rattle.std.specs.Prelude.{◌≡◌, ◌≤◌, false, length};
ghost use Rattle.rules.specs.Walk.{any};
ghost use Rattle.rules.specs.Clause.{neg, mem, tautology};
ghost use Rattle.rules.specs.Blocking.{resists};
ghost use Rattle.rules.specs.Inner.{opposed, opposed_but};

// The negation of a literal.
#[tactic(auto, unfolding(crate::specs::Clause::neg))]
pub fn negated(l: u16) -> u16
    ensures { result ≡ neg l }
{
    if l % 2 == 0 { l + 1 } else { l - 1 }
}

// Whether a part of a clause, of at most 64 literals, holds the literal. It goes to the end whatever it meets, so that the machine compares many
// literals at once. This loop and that of `contains` stay as they are: with `for` over the part's literals, over its places or over `chunks(64)` elimination
// took up to twice as long, 1.2 to 1.5 times the same algorithm in Rust.
fn part_contains(c: &[u16], l: u16) -> bool
    requires { length c.now ≤ 64 }
    ensures { result ≡ mem l c.now }
{
    let mut many = 0u16;
    let mut i = 0;
    while i < c.len() {
        many += u16::from(c[i] == l);
        i += 1;
    }
    0 < many
}

// Whether some literal of the clause is the literal. It stops at the first.
#[tactic(auto, unfolding(crate::specs::Clause::mem))]
fn walk_contains(c: &[u16], l: u16) -> bool
    ensures { result ≡ mem l c.now }
{
    c.iter().any(|x| l == *x)
}

// Whether the clause holds the literal: parts of 64 literals first, and then the rest.
pub fn contains(c: &[u16], l: u16) -> bool
    ensures { result ≡ mem l c.now }
{
    let mut from = 0;
    while 64 <= c.len() - from {
        if part_contains(&c[from..from + 64], l) {
            return true;
        }
        from += 64;
    }
    walk_contains(&c[from..], l)
}

// Whether the clause holds the literal of a stack's word, which may be no code at all.
#[tactic(auto, using(crate::proofs::Members::absent))]
pub fn contains_word(c: &[u16], l: u32) -> bool
    ensures { result ≡ mem l c.now }
{
    match u16::try_from(l) {
        Ok(code) => contains(c, code),
        Err(_) => false,
    }
}

// Whether the negation of x is in d and is not z.
#[tactic(auto, unfolding(crate::specs::Inner::opposed))]
fn opposes(d: &[u16], z: u16, x: u16) -> bool
    ensures { result ≡ opposed d.now z x }
{
    let y = negated(x);
    y != z && contains(d, y)
}

// Whether some literal of c has its negation, z apart, in d: c is gone through. (This one, `clashes_within` and `is_tautology` are a line each, over three
// definitions.)
#[inline(always)]
fn clashes_from(c: &[u16], d: &[u16], z: u16) -> bool
    ensures { result ≡ any (opposed d.now z) c.now }
{
    c.iter().any(|x| opposes(d, z, *x))
}

// The same, going through d: many literals of a long c are compared at once.
#[inline(never)]
#[tactic(auto, using(crate::proofs::Joins::opposed_either))]
fn clashes_of_long(c: &[u16], d: &[u16], z: u16) -> bool
    ensures { result ≡ any (opposed d.now z) c.now }
{
    clashes_from(d, c, negated(z))
}

// The same: through d where c is long and d is shorter, and else through c. It is inlined with `clashes_from`: as a function of its own it made elimination
// of short clauses take a tenth longer.
#[inline(always)]
fn clashes(c: &[u16], d: &[u16], z: u16) -> bool
    ensures { result ≡ any (opposed d.now z) c.now }
{
    if 64 <= c.len() && d.len() < c.len() {
        return clashes_of_long(c, d, z);
    }
    clashes_from(c, d, z)
}

// Whether d without z is a tautology.
#[tactic(auto, unfolding(crate::specs::Inner::opposed_but))]
fn clashes_within(d: &[u16], z: u16) -> bool
    ensures { result ≡ any (opposed_but d.now z) d.now }
{
    d.iter().any(|x| *x != z && opposes(d, z, *x))
}

// Whether the clause holds some variable and its negation.
#[tactic(auto, unfolding(crate::specs::Clause::tautology))]
fn is_tautology(c: &[u16]) -> bool
    ensures { result ≡ tautology c.now }
{
    c.iter().any(|x| contains(c, negated(*x)))
}

// Whether d keeps the literal l from blocking c (document 002, Definition 2): d holds the negation of l, and c together with d without it is no
// tautology. Both clauses are read as they stand.
#[tactic(auto, using(crate::proofs::Joins::resists_parts))]
pub fn hinders(c: &[u16], l: u16, d: &[u16]) -> bool
    ensures { result ≡ resists c.now l d.now }
{
    let z = negated(l);
    contains(d, z) && !(clashes(c, d, z) || clashes_within(d, z) || is_tautology(c))
}

// The same where neither clause is a tautology: then only a literal of c and one of d can clash, which is the usual case and the fastest.
#[tactic(auto, using(crate::proofs::Joins::resists_plain))]
pub fn hinders_plain(c: &[u16], l: u16, d: &[u16]) -> bool
    requires c_plain { tautology c.now ≡ false }
    requires d_plain { tautology d.now ≡ false }
    ensures { result ≡ resists c.now l d.now }
{
    let z = negated(l);
    contains(d, z) && !clashes(c, d, z)
}
