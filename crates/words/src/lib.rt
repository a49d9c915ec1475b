// Bytes, tokens and numbers of a text: what a byte is, which token comes next, and what a token says as a number. Where a place is told, the text comes
// whole with the place from which it is read, not as the rest of it: refusals name places of the whole text.
#![tactic(auto)]

ghost use Rattle.std.specs.Prelude.{◌≡◌, ◌≤◌, ◌<◌, not, min, length, drop, get_or, option_map, unwrap_or};
ghost use Rattle.rules.specs.Walk.{same};
ghost use Rattle.words.specs.Bytes.{class_of, begins};
ghost use Rattle.words.specs.Tokens.{is_gap};
ghost use Rattle.words.specs.Numbers.{digit_of, digits, natural, number};
ghost use Rattle.words.specs.Inner.{Next, first_from, capped};

// What a byte is to the reader of a text.
#[derive(Clone, Copy, Debug, PartialEq, Eq)]
enum Class {
    Digit(u8),
    Minus,
    Blank,
    Cr,
    Lf,
    Other,
}

fn class_of(b: u8) -> Class
    ensures { result ≡ class_of b }
{
    match b {
        b'0'..=b'9' => Class::Digit(b - b'0'),
        b'-' => Class::Minus,
        b' ' | b'\t' => Class::Blank,
        b'\r' => Class::Cr,
        b'\n' => Class::Lf,
        _ => Class::Other,
    }
}

// Whether the byte x stands at i.
pub fn begins_at(s: &[u8], i: usize, x: u8) -> bool
    ensures { result ≡ begins x (drop i s.now) }
{
    s.get(i) == Some(&x)
}

// Whether two slices hold the same bytes.
pub fn same_bytes(a: &[u8], b: &[u8]) -> bool
    ensures { result ≡ same a.now b.now }
{
    a == b
}

// The part of a text that a token is read from: in the problem line only blanks stand between tokens, in the clauses the ends of lines too.
#[derive(Clone, Copy, Debug, PartialEq, Eq)]
pub enum Section {
    ProblemLine,
    Clauses,
}

// Whether the byte stands between tokens.
fn is_gap(b: u8, section: Section) -> bool
    ensures { result ≡ is_gap section (class_of b) }
{
    match class_of(b) {
        Class::Blank => true,
        Class::Cr | Class::Lf => section == Section::Clauses,
        Class::Digit(_) | Class::Minus | Class::Other => false,
    }
}

// Whether the byte at i stands between tokens.
pub fn gap_at(s: &[u8], i: usize, section: Section) -> bool
    requires { i < length s.now }
    ensures { result ≡ is_gap section (class_of (get_or s.now i 0)) }
{
    is_gap(s[i], section)
}

// The first byte from `from` on that is no gap.
fn token_place(s: &[u8], from: usize, section: Section) -> Option<usize>
    requires { from ≤ length s.now }
    ensures { result ≡ first_from (λ b. not (is_gap section (class_of b))) s.now from }
{
    (from..s.len()).find(|&i| !gap_at(s, i, section))
}

// The first gap from `from` on, or the end of the text. This loop stays as it is: with `find`, as above, and `unwrap_or` a text of short clauses took up
// to a third longer.
fn token_end(s: &[u8], from: usize, section: Section) -> usize
    requires { from ≤ length s.now }
    ensures { result ≡ unwrap_or (first_from (λ b. is_gap section (class_of b)) s.now from) (length s.now) }
{
    for i in from..s.len() {
        if gap_at(s, i, section) {
            return i;
        }
    }
    s.len()
}

// Where a token stands: the offset of its first byte, and the offset after its last.
#[derive(Clone, Copy, Debug, PartialEq, Eq)]
pub struct Span {
    pub place: usize,
    pub end: usize,
}

// The next token from `from` on, of that section.
pub fn next_token(s: &[u8], from: usize, section: Section) -> Option<Span>
    requires { from ≤ length s.now }
    ensures { Next section s.now from result }
{
    let place = token_place(s, from, section)?;
    let end = token_end(s, place + 1, section);
    Some(Span { place, end })
}

// What a token says as a number: a number above a million counts as a million, which is above every limit.
#[derive(Clone, Copy, Debug, PartialEq, Eq)]
pub enum Number {
    Plain(usize),
    Negative(usize),
}

// A digit's value.
fn digit_of(b: u8) -> Option<u8>
    ensures { result ≡ digit_of (class_of b) }
{
    match class_of(b) {
        Class::Digit(d) => Some(d),
        _ => None,
    }
}

// The number that the digits say, however many they are: std's `parse` refuses a long row of digits, which is a number here.
fn value_of(token: &[u8]) -> Option<usize>
    ensures { result ≡ option_map (min 1000000) (digits 0 token.now) }
{
    let mut n: usize = 0;
    for b in token {
        let d = digit_of(*b)?;
        n = (n * 10 + usize::from(d)).min(1000000);
    }
    Some(n)
}

// The number of a token without its minus: digits that don't begin with 0.
fn natural(token: &[u8]) -> Option<usize>
    ensures { result ≡ option_map (min 1000000) (natural token.now) }
{
    match token {
        [] | [b'0', ..] => None,
        _ => value_of(token),
    }
}

pub fn number_of(token: &[u8]) -> Option<Number>
    ensures { result ≡ capped (number token.now) }
{
    match token {
        [b'-', rest @ ..] => natural(rest).map(Number::Negative),
        b"0" => Some(Number::Plain(0)),
        _ => natural(token).map(Number::Plain),
    }
}
