// The doors: each public entry of the library as a C function on numbers and slices (include/broodchamber.h declares them for C). A slice passes as a
// pointer and then a length. What a call answers stands in the first four cells of `answer`: 0 and its values, or the refusal's number and its place,
// and zeros in the rest. Each says whether the call was made: with fewer than four cells for the answer it is not, and nothing changes.
// The counts and the buffers stay parameters of their own, and so do the clauses' words for them: they are the C interface.
#![tactic(auto, unfolding(crate::specs::Doors::door))]

ghost use Rattle.std.specs.Prelude.{◌≡◌, true, false, [], ◌∷◌, ◌≤◌, ◌<◌, length};
ghost use Rattle.table.specs.Limits.{base};
ghost use Rattle.table.specs.Lent.{lent};
ghost use Rattle.table.specs.Table.{table, sound};
ghost use Rattle.table.specs.Stack.{lay};
ghost use Rattle.stack.specs.Tests.{check};
ghost use Rattle.removal.specs.Removal.{elimination, removal, question};
ghost use Rattle.rebuild.specs.Rebuild.{rebuilding};
ghost use Rattle.text.specs.Text.{reading as text_reading};
ghost use Rattle.saved.specs.Field.{narrow};
ghost use Rattle.saved.specs.Saved.{writing, reading as saved_reading};
ghost use Rattle.answers.specs.Cells.{cells_of, four_cells};
ghost use Rattle.broodchamber.specs.Doors.{seen, asked, wrote, read_table, read_both, stretch};

use answers::{Answer, of_result};
use table::{Entry, Stack, Table};

// Makes a call where there are four cells for its answer, and lays the answer down. Whether the call was made. The call is lent, so that what it would
// write is known to stay as it came where it is not made.
fn made<F: FnMut() -> Answer>(answer: &mut [usize], call: &mut F) -> bool
    requires { F.IsAlwaysCallable call.old }
    ensures not_made { length answer.old < 4 → (result ≡ false) × (answer.new ≡ answer.old) × (call.new ≡ call.old) }
    ensures made { 4 ≤ length answer.old → (result ≡ true) × ((told : _) × F.step call.old told call.new × (answer.new ≡ lay (four_cells told) answer.old)) }
{
    if answer.len() < 4 {
        return false;
    }
    call().tell(answer);
    true
}

// The table that is lent.
fn table<'a>(n: usize, m: usize, lits: &'a [u16], offs: &'a [u32]) -> Table<'a, 'a>
    ensures { lent result ≡ table n m lits.now offs.now }
{
    Table {
        variables: n,
        clauses: m,
        lits,
        offs,
    }
}

// Whether the table is sound.
#[unsafe(no_mangle)]
pub extern "C" fn bc_is_sound(n: usize, m: usize, lits: &[u16], offs: &[u32]) -> bool
    ensures { result ≡ sound base (table n m lits.now offs.now) }
{
    let t = table(n, m, lits, offs);
    t.is_sound()
}

// Where the literals of clause k start in the lent literal buffer, and how many they are.
#[tactic(auto, using(crate::proofs::Stretches::handed_tells), unfolding(table::specs::Stack::lay, crate::specs::Doors::start_of, crate::specs::Doors::stretch))]
fn stretch(t: &Table, k: usize) -> Answer
    ensures { four_cells result ≡ cells_of (stretch base (lent t.now) k) }
{
    let given = t.clause_literals(k);
    if given.is_empty() {
        return Answer::of_values(0, 0, 0);
    }
    Answer::of_values(t.offs[k - 1] as usize, given.len(), 0)
}

// Where the literals of clause k stand in the lent literal buffer: their start and how many they are. For an unsound table, a number outside 1 to m and
// an empty clause both are 0.
#[unsafe(no_mangle)]
pub extern "C" fn bc_clause_literals(
    n: usize,
    m: usize,
    lits: &[u16],
    offs: &[u32],
    k: usize,
    answer: &mut [usize],
) -> bool
    ensures { seen result answer.new [] ≡ asked answer.old (stretch base (table n m lits.now offs.now) k) }
{
    let t = table(n, m, lits, offs);
    made(answer, &mut || stretch(&t, k))
}

// Reads a DIMACS text into the lent table: the counts of variables and of clauses.
#[unsafe(no_mangle)]
pub extern "C" fn bc_read_text(
    text: &[u8],
    lits: &mut [u16],
    offs: &mut [u32],
    answer: &mut [usize],
) -> bool
    ensures { seen result answer.new (lits.new ∷ offs.new ∷ []) ≡ read_table answer.old lits.old offs.old (text_reading base text.now lits.old offs.old) }
{
    made(answer, &mut || of_result(text::read_text(text, lits, offs)))
}

// Eliminates from an empty stack: the count of removals.
#[unsafe(no_mangle)]
pub extern "C" fn bc_eliminate(
    n: usize,
    m: usize,
    lits: &[u16],
    offs: &[u32],
    stack: &mut [u32],
    answer: &mut [usize],
) -> bool
    ensures { seen result answer.new (stack.new ∷ []) ≡ wrote answer.old stack.old (elimination base (table n m lits.now offs.now) stack.old) }
{
    let t = table(n, m, lits, offs);
    made(answer, &mut || of_result(removal::eliminate(&t, stack)))
}

// Removes one named clause by one named literal: the count of entries that are now on the stack.
#[unsafe(no_mangle)]
pub extern "C" fn bc_remove(
    n: usize,
    m: usize,
    lits: &[u16],
    offs: &[u32],
    stack: &mut [u32],
    count: usize,
    clause: u32,
    literal: u32,
    answer: &mut [usize],
) -> bool
    ensures { seen result answer.new (stack.new ∷ []) ≡ wrote answer.old stack.old (removal base (table n m lits.now offs.now) stack.old count clause literal) }
{
    let t = table(n, m, lits, offs);
    let entry = Entry { clause, literal };
    made(
        answer,
        &mut || of_result(removal::remove(&t, stack, count, entry)),
    )
}

// Which clause can go next: the lowest live blocked clause with its first blocking literal, or 0 and 0 for none.
#[unsafe(no_mangle)]
pub extern "C" fn bc_next_blocked(
    n: usize,
    m: usize,
    lits: &[u16],
    offs: &[u32],
    stack: &[u32],
    count: usize,
    answer: &mut [usize],
) -> bool
    ensures { seen result answer.new [] ≡ asked answer.old (question base (table n m lits.now offs.now) stack.now count) }
{
    let t = table(n, m, lits, offs);
    let stack = Stack {
        words: stack,
        count,
    };
    made(answer, &mut || of_result(removal::next_blocked(&t, &stack)))
}

// Checks a stack: accepted, or the first entry that is wrong.
#[unsafe(no_mangle)]
pub extern "C" fn bc_check_stack(
    n: usize,
    m: usize,
    lits: &[u16],
    offs: &[u32],
    stack: &[u32],
    count: usize,
    answer: &mut [usize],
) -> bool
    ensures { seen result answer.new [] ≡ asked answer.old (check base (table n m lits.now offs.now) stack.now count) }
{
    let t = table(n, m, lits, offs);
    let stack = Stack {
        words: stack,
        count,
    };
    made(answer, &mut || of_result(stack::check_stack(&t, &stack)))
}

// Rebuilds the values, from the newest removal to the oldest.
#[unsafe(no_mangle)]
pub extern "C" fn bc_rebuild(
    n: usize,
    m: usize,
    lits: &[u16],
    offs: &[u32],
    stack: &[u32],
    count: usize,
    vals: &mut [u8],
    answer: &mut [usize],
) -> bool
    ensures { seen result answer.new (vals.new ∷ []) ≡ wrote answer.old vals.old (rebuilding base (table n m lits.now offs.now) stack.now count vals.old) }
{
    let t = table(n, m, lits, offs);
    let stack = Stack {
        words: stack,
        count,
    };
    made(
        answer,
        &mut || of_result(rebuild::rebuild(&t, &stack, vals)),
    )
}

// Writes the saved form: its length in bytes.
#[unsafe(no_mangle)]
pub extern "C" fn bc_write_saved(
    n: usize,
    m: usize,
    lits: &[u16],
    offs: &[u32],
    stack: &[u32],
    count: usize,
    out: &mut [u8],
    answer: &mut [usize],
) -> bool
    ensures { seen result answer.new (out.new ∷ []) ≡ wrote answer.old out.old (writing base narrow (table n m lits.now offs.now) stack.now count out.old) }
{
    let t = table(n, m, lits, offs);
    let stack = Stack {
        words: stack,
        count,
    };
    made(
        answer,
        &mut || of_result(saved_write::write_saved(&t, &stack, out)),
    )
}

// Reads a saved form into the lent table and stack: the counts of variables, clauses and entries.
#[unsafe(no_mangle)]
pub extern "C" fn bc_read_saved(
    bytes: &[u8],
    lits: &mut [u16],
    offs: &mut [u32],
    stack: &mut [u32],
    answer: &mut [usize],
) -> bool
    ensures { seen result answer.new (lits.new ∷ offs.new ∷ stack.new ∷ []) ≡ read_both answer.old lits.old offs.old stack.old (saved_reading base narrow bytes.now lits.old offs.old stack.old) }
{
    made(
        answer,
        &mut || of_result(saved_read::read_saved(bytes, lits, offs, stack)),
    )
}
