// What a call answers as four cells: 0 and its values, or the refusal's number and its place, and zeros in the rest.
#![tactic(auto, unfolding(table::specs::Stack::lay))]

ghost use Rattle.std.specs.Prelude.{◌≡◌, List, [], ◌∷◌, ℕ, ◌≤◌, length};
ghost use Rattle.table.specs.Stack.{lay, words};
ghost use Rattle.table.specs.Answer.{answered, paper, reply_of};
ghost use Rattle.removal.specs.Removal.{listed};
ghost use Rattle.answers.specs.Cells.{cells_of, four_cells};

use saved_read::Restored;
use table::{Entry, Numbered, Refusal};
use text::Counts;

// What the first four cells of an answer hold.
#[derive(Clone, Copy, Debug, PartialEq, Eq)]
pub struct Answer {
    pub cells: [usize; 4],
}

impl Answer {
    // The cells of an answer of three values.
    pub fn of_values(first: usize, second: usize, third: usize) -> Answer
        ensures { four_cells result ≡ cells_of (answered (first ∷ second ∷ third ∷ [])) }
    {
        Answer {
            cells: [0, first, second, third],
        }
    }

    // Lays the answer down.
    pub fn tell(self, answer: &mut [usize])
        requires { 4 ≤ length answer.old }
        ensures { answer.new ≡ lay (four_cells self) answer.old }
    {
        answer[..4].copy_from_slice(&self.cells);
    }
}

// The cells of a refusal.
impl From<Refusal> for Answer {
    ghost from_gives = { λ r answer. four_cells answer ≡ cells_of (paper r) };

    fn from(r: Refusal) -> Answer {
        let Numbered { number, place } = Numbered::from(r);
        Answer {
            cells: [number, place, 0, 0],
        }
    }
}

// What an entry answers where it does not refuse: at most three values, in the order in which they are told.
pub trait Values {
    ghost values: { Self → List ℕ };

    // The cells of these values.
    fn answer(self) -> Answer
        ensures { four_cells result ≡ cells_of (answered (values self)) };
}

// The stack check and rebuild have no value to give.
impl Values for () {
    ghost values = { λ _. [] };

    fn answer(self) -> Answer {
        Answer::of_values(0, 0, 0)
    }
}

// Eliminate and remove answer the count of entries, the writer of the saved form its length.
impl Values for usize {
    ghost values = { λ count. count ∷ [] };

    fn answer(self) -> Answer {
        Answer::of_values(self, 0, 0)
    }
}

// The text reader answers the counts of variables and of clauses.
impl Values for Counts {
    ghost values = { λ counts. counts.variables ∷ counts.clauses ∷ [] };

    fn answer(self) -> Answer {
        Answer::of_values(self.variables, self.clauses, 0)
    }
}

// The question answers a clause and the literal that blocks it, or none.
#[tactic(auto, unfolding(table::specs::Stack::lay, table::specs::Stack::words))]
impl Values for Option<Entry> {
    ghost values = { λ entry. words (listed entry) };

    fn answer(self) -> Answer {
        match self {
            Some(entry) => Answer::of_values(entry.clause as usize, entry.literal as usize, 0),
            None => ().answer(),
        }
    }
}

// The reader of the saved form answers the counts of variables, clauses and entries.
impl Values for Restored {
    ghost values = { λ counts. counts.variables ∷ counts.clauses ∷ counts.removals ∷ [] };

    fn answer(self) -> Answer {
        Answer::of_values(self.variables, self.clauses, self.removals)
    }
}

// The cells of what an entry answers: its values, or the refusal.
pub fn of_result<T: Values>(r: Result<T, Refusal>) -> Answer
    ensures { four_cells result ≡ cells_of (reply_of T.values r) }
{
    match r {
        Ok(told) => told.answer(),
        Err(refusal) => refusal.into(),
    }
}
