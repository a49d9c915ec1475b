// The reader of DIMACS CNF text: comment lines, the problem line, the clauses (document 01, 'The text'). It goes through the clauses twice, first to find
// a fault, then to fill the lent buffers, so that a refused text changes no cell. The two buffers stay apart, as C lends them to `read_text`; a struct of them
// would be made for three private calls.
#![tactic(auto)]

ghost use Rattle.std.specs.Prelude.{◌≡◌, ◌≢◌, ◌==◌, false, ◌+◌, ◌≤◌, ◌<◌, length, drop, position, unwrap_or, MatchResult};
ghost use Rattle.table.specs.declared.Refusal.TheVariants.{BadText};
ghost use Rattle.table.specs.Limits.{base};
ghost use Rattle.table.specs.Stack.{lay};
ghost use Rattle.words.specs.declared.Section.TheVariants.{ProblemLine};
ghost use Rattle.words.specs.declared.Span.{Span};
ghost use Rattle.words.specs.Tokens.{tokens_from};
ghost use Rattle.words.specs.Numbers.{number};
ghost use Rattle.words.specs.Inner.{Next};
ghost use Rattle.text.specs.Lines.{after_c, comment, prologue, ends, line_end};
ghost use Rattle.text.specs.Problem.{from_p, problem};
ghost use Rattle.text.specs.Clauses.{code_of, step_of};
ghost use Rattle.text.specs.Text.{table_outcome, read_reply, as_table, table_of, left, reading};
ghost use Rattle.text.specs.Inner.{ReadClause, AddedClause, Checked, Good, lits_of, offs_of, clauses_from, LinePassed, KeywordFound, CountFound, Counted};

use table::Refusal;
use words::{Number, Section, Span};

// Whether a line ends before the first byte.
fn ends(rest: &[u8]) -> bool
    ensures { result ≡ ends rest.now }
{
    match rest {
        [] | [b'\n', ..] | [b'\r', b'\n', ..] => true,
        _ => false,
    }
}

// The end of the line that begins at `from`.
fn line_end(text: &[u8], from: usize) -> usize
    requires { from ≤ length text.now }
    ensures { (result ≡ line_end from (drop from text.now)) × (result ≤ length text.now) × (from ≤ result) }
{
    for i in from..text.len() {
        if ends(&text[i..]) {
            return i;
        }
    }
    text.len()
}

// Whether, after a `c`, the line ends or a blank stands there.
fn after_c(rest: &[u8]) -> bool
    ensures { result ≡ after_c rest.now }
{
    ends(rest) || words::gap_at(rest, 0, Section::ProblemLine)
}

// Whether a right comment begins here.
fn comment(rest: &[u8]) -> bool
    ensures { result ≡ comment rest.now }
{
    match rest {
        [b'c', rest @ ..] => after_c(rest),
        _ => false,
    }
}

// How many bytes stand before the first LF.
fn before_lf(rest: &[u8]) -> Option<usize>
    ensures { result ≡ position (λ b. b == 10) rest.now }
{
    rest.iter().position(|b| *b == b'\n')
}

// The line after the one that `from` is in, or the end of the text.
fn next_line(text: &[u8], from: usize) -> usize
    requires { from ≤ length text.now }
    ensures { LinePassed text.now from result }
{
    match before_lf(&text[from..]) {
        Some(n) => from + n + 1,
        None => text.len(),
    }
}

// The first line that is no right comment, or the end of the text.
fn first_line(text: &[u8]) -> usize
    ensures { (result ≡ prologue false 0 text.now) × (result ≤ length text.now) }
{
    let mut at: usize = 0;
    while comment(&text[at..]) {
        at = next_line(text, at + 1);
    }
    at
}

// The next token of that section, which may not be missing.
fn token_at(s: &[u8], from: usize, section: Section) -> Result<Span, Refusal>
    requires { from ≤ length s.now }
    ensures { MatchResult result (λ t. Next section s.now from (Some t))
        (λ r. Next section s.now from None × (r ≡ BadText (length s.now))) }
{
    words::next_token(s, from, section).ok_or(Refusal::BadText(s.len()))
}

// That no token of that section is left.
fn no_more(s: &[u8], from: usize, section: Section) -> Result<(), Refusal>
    requires { from ≤ length s.now }
    ensures { MatchResult result (λ _. Next section s.now from None)
        (λ r. ((t : Span) × Next section s.now from (Some t) × (r ≡ BadText t.place))) }
{
    match words::next_token(s, from, section) {
        None => Ok(()),
        Some(t) => Err(Refusal::BadText(t.place)),
    }
}

// The next token of a line, which is to be a keyword: where it ends.
fn keyword_at(line: &[u8], from: usize, keyword: &[u8]) -> Result<usize, Refusal>
    requires { from ≤ length line.now }
    ensures { KeywordFound line.now from keyword.now result }
{
    let t = token_at(line, from, Section::ProblemLine)?;
    if words::same_bytes(keyword, &line[t.place..t.end]) {
        Ok(t.end)
    } else {
        Err(Refusal::BadText(t.place))
    }
}

// The next token of a line, which is to be a count up to `limit`: V or C, and where it ends.
fn count_at(line: &[u8], from: usize, limit: usize) -> Result<(usize, usize), Refusal>
    requires { (from ≤ length line.now) × (limit < 1000000) }
    ensures { CountFound line.now from limit result }
{
    let t = token_at(line, from, Section::ProblemLine)?;
    match words::number_of(&line[t.place..t.end]) {
        Some(Number::Plain(count)) if count <= limit => Ok((count, t.end)),
        Some(Number::Plain(_)) => Err(Refusal::OverLimit(t.place)),
        Some(Number::Negative(_)) | None => Err(Refusal::BadText(t.place)),
    }
}

// The counts of the problem line.
#[derive(Clone, Copy, Debug, PartialEq, Eq)]
pub struct Counts {
    pub variables: usize,
    pub clauses: usize,
}

// `p cnf V C`, and no token after it.
fn read_counts(line: &[u8], from: usize) -> Result<Counts, Refusal>
    requires { from ≤ length line.now }
    ensures { Counted (from_p base (length line.now) (tokens_from ProblemLine line.now from)) result }
{
    let after_p = keyword_at(line, from, b"p")?;
    let after_cnf = keyword_at(line, after_p, b"cnf")?;
    let (variables, after_v) = count_at(line, after_cnf, 2000)?;
    let (clauses, after_c) = count_at(line, after_v, 4000)?;
    no_more(line, after_c, Section::ProblemLine)?;
    Ok(Counts { variables, clauses })
}

// The line from `start` to `end` as the problem line.
fn read_problem(text: &[u8], start: usize, end: usize) -> Result<Counts, Refusal>
    requires { (start ≤ end) × (end ≤ length text.now) }
    ensures { Counted (problem base text.now start end) result }
{
    if words::begins_at(text, start, b'p') {
        read_counts(&text[..end], start)
    } else {
        Err(Refusal::BadText(start))
    }
}

// The code that a token says, 0 for the 0 that ends a clause, or none where it is no number or its variable is above n. The definition has the 0 and, for
// none, 1, and the contract says that this is all that they mean.
fn code_of(token: &[u8], n: usize) -> Option<u16>
    requires { n ≤ 2000 }
    ensures code { unwrap_or result 1 ≡ code_of n (number token.now) }
    ensures literal { result ≢ Some 1 }
{
    match words::number_of(token)? {
        Number::Plain(v) if v <= n => Some((2 * v) as u16),
        Number::Negative(v) if v <= n => Some((2 * v + 1) as u16),
        _ => None,
    }
}

// What a token is to a clause.
#[derive(Clone, Copy, Debug, PartialEq, Eq)]
enum Step {
    Wrong,
    Ends,
    Repeated,
    Kept(u16),
    Full,
}

// What a token with that code is to a clause with the literals `kept`, of at most `room`.
fn step_of(kept: &[u16], room: usize, code: Option<u16>) -> Step
    requires { code ≢ Some 1 }
    ensures { result ≡ step_of room kept.now (unwrap_or code 1) }
{
    match code {
        None => Step::Wrong,
        Some(0) => Step::Ends,
        Some(x) if rules::contains(kept, x) => Step::Repeated,
        Some(x) if kept.len() < room => Step::Kept(x),
        Some(_) => Step::Full,
    }
}

// Reads one clause into the front of `kept`: how many literals were kept, and where its 0 ends. The count stands beside the buffer, which is lent: there is no
// heap for a Vec.
fn read_clause(
    text: &[u8],
    from: usize,
    n: usize,
    room: usize,
    kept: &mut [u16],
) -> Result<(usize, usize), Refusal>
    requires { (from ≤ length text.now) × (n ≤ 2000) × (room ≤ length kept.old) }
    ensures { ReadClause text.now from n room kept.old kept.new result }
{
    let mut at = from;
    let mut count: usize = 0;
    loop {
        let t = token_at(text, at, Section::Clauses)?;
        let code = code_of(&text[t.place..t.end], n);
        match step_of(&kept[..count], room, code) {
            Step::Wrong => return Err(Refusal::BadText(t.place)),
            Step::Ends => return Ok((count, t.end)),
            Step::Repeated => {}
            Step::Kept(x) => {
                kept[count] = x;
                count += 1;
            }
            Step::Full => return Err(Refusal::OverLimit(t.place)),
        }
        at = t.end;
    }
}

// The first pass: reads all clauses and keeps none.
fn check_clauses(text: &[u8], from: usize, counts: Counts) -> Result<(), Refusal>
    requires { (from ≤ length text.now) × (counts.variables ≤ 2000) }
    ensures { Checked text.now from counts result }
{
    let mut kept = [0u16; 1000];
    let mut at = from;
    let mut total: usize = 0;
    for _k in 0..counts.clauses {
        let room = (16000 - total).min(1000);
        let (count, end) = read_clause(text, at, counts.variables, room, &mut kept)?;
        total += count;
        at = end;
    }
    no_more(text, at, Section::Clauses)
}

// Reads one clause into the part of `lits` that begins at `total`.
fn add_clause(
    text: &[u8],
    from: usize,
    n: usize,
    room: usize,
    lits: &mut [u16],
    total: usize,
) -> Result<(usize, usize), Refusal>
    requires { (from ≤ length text.now) × (n ≤ 2000) × (total + room ≤ length lits.old) }
    ensures { AddedClause text.now from n room total lits.old lits.new result }
{
    read_clause(text, from, n, room, &mut lits[total..])
}

// The second pass: reads the clauses of a text that the first found good into the table. It differs from the first in where a clause's literals go and in
// what is noted of it; what the two share is `read_clause`.
fn fill_clauses(text: &[u8], from: usize, counts: Counts, lits: &mut [u16], offs: &mut [u32])
    requires limits { (from ≤ length text.now) × (counts.variables ≤ 2000) × (16000 ≤ length lits.old) × (counts.clauses < length offs.old) }
    requires good { Good text.now from counts }
    ensures lits_after { lits.new ≡ lay (lits_of (clauses_from text.now from counts.variables counts.clauses)) lits.old }
    ensures offs_after { offs.new ≡ lay (offs_of (clauses_from text.now from counts.variables counts.clauses)) offs.old }
{
    let mut at = from;
    let mut total: usize = 0;
    offs[0] = 0;
    for k in 0..counts.clauses {
        let room = (16000 - total).min(1000);
        let Ok((count, end)) = add_clause(text, at, counts.variables, room, lits, total) else {
            unreachable!();
        };
        total += count;
        at = end;
        offs[k + 1] = total as u32;
    }
}

// The clauses, checked and then filled in.
fn read_clauses(
    text: &[u8],
    from: usize,
    counts: Counts,
    lits: &mut [u16],
    offs: &mut [u32],
) -> Result<Counts, Refusal>
    requires ends { from ≤ length text.now }
    requires counts { (counts.variables ≤ 2000) × (counts.clauses ≤ 4000) }
    requires room { (16000 ≤ length lits.old) × (4000 < length offs.old) }
    ensures { table_outcome (read_reply result) lits.new offs.new
        ≡ left (as_table counts.variables counts.clauses (clauses_from text.now from counts.variables counts.clauses)) lits.old offs.old }
{
    check_clauses(text, from, counts)?;
    fill_clauses(text, from, counts, lits, offs);
    Ok(counts)
}

// The comment lines, the problem line, and then the clauses.
fn read_table(text: &[u8], lits: &mut [u16], offs: &mut [u32]) -> Result<Counts, Refusal>
    requires { (16000 ≤ length lits.old) × (4000 < length offs.old) }
    ensures { table_outcome (read_reply result) lits.new offs.new ≡ left (table_of base text.now) lits.old offs.old }
{
    let start = first_line(text);
    let end = line_end(text, start);
    let counts = read_problem(text, start, end)?;
    read_clauses(text, end, counts, lits, offs)
}

// Reads the text into the lent buffers: the literals and the m + 1 offsets lie at their start, and what is behind them stays. A refusal leaves both as they
// came.
pub fn read_text(text: &[u8], lits: &mut [u16], offs: &mut [u32]) -> Result<Counts, Refusal>
    ensures { table_outcome (read_reply result) lits.new offs.new ≡ reading base text.now lits.old offs.old }
{
    if lits.len() < 16000 || offs.len() < 4001 {
        return Err(Refusal::NoRoom);
    }
    if 65536 < text.len() {
        return Err(Refusal::OverLimit(0));
    }
    read_table(text, lits, offs)
}
