// What is known of a form as far as it was read: the header, and what the lines so far hold.
#![tactic(auto)]

ghost use Rattle.std.specs.Prelude.{◌≤◌, ◌<◌, length};

// The header's four numbers, within their limits.
#[derive(Clone, Copy, Debug)]
pub struct Head {
    pub variables: usize,
    pub clauses: usize,
    pub literals: usize,
    pub removals: usize,
    pub ghost limits: { (variables ≤ 2_000) × (clauses ≤ 4_000) × (literals ≤ 16_000) },
    pub ghost removed: { removals ≤ clauses },
}

// Where a clause's literals lie in the bytes: from one place to another. Two bytes hold a place, since the fields of 4,000 clauses with 16,000 literals end
// before 65,536.
#[derive(Clone, Copy, Debug)]
pub struct Part {
    pub from: u16,
    pub to: u16,
}

// What the lines before one hold: the last clause number, how many literals, and the clauses' parts of the bytes, by clause number.
#[derive(Clone, Copy)]
pub struct Before<'a> {
    pub last: u16,
    pub literals: usize,
    pub parts: &'a [Option<Part>],
    pub ghost few: { literals ≤ 16_000 },
    pub ghost parts_room: { 4_000 < length parts.now },
}
