// Each call, and what came of it.
use lines::Case;
use rebuild::rebuild;
use say::Items;
use say::lent::{all_are, cut};
use stack::check_stack;
use table::{Entry, Refusal, Stack, Table};

// Prints the length of the stretch that is handed out for clause k, and its first literal.
pub fn hands_out(rt: &impl Print, table: &Table<'_, '_>, k: usize) {
    let literals = table.clause_literals(k);
    let _ = print!(rt; "of {k} gives {}", literals.len());
    if let Some(first) = literals.first() {
        let _ = print!(rt; " from {first}");
    }
}

// Asks for the next removal.
pub fn asks(rt: &impl Print, table: &Table<'_, '_>, stack: &Stack<'_>) {
    let _ = match removal::next_blocked(table, stack) {
        Ok(Some(Entry { clause, literal })) => print!(rt; "answers {clause} by {literal}"),
        Ok(None) => print!(rt; "answers none"),
        Err(refusal) => print!(rt; "{refusal}"),
    };
}

// Checks a stack.
pub fn checks(rt: &impl Print, table: &Table<'_, '_>, stack: &Stack<'_>) {
    let _ = match check_stack(table, stack) {
        Ok(()) => print!(rt; "accepted"),
        Err(refusal) => print!(rt; "{refusal}"),
    };
}

// Prints a refusal, and whether the stack is as it came.
fn refused(rt: &impl Print, refusal: Refusal, is_kept: bool) {
    let stack = if is_kept {
        "the stack is as it came"
    } else {
        "THE STACK IS CHANGED"
    };
    let _ = print!(rt; "{refusal}; {stack}");
}

// Eliminates, on a stack of sevens.
pub fn eliminates(rt: &impl Print, table: &Table<'_, '_>, stack: &mut [u32]) {
    match removal::eliminate(table, stack) {
        Ok(count) => {
            let (entries, behind) = cut(stack, count.saturating_mul(2));
            let rest = if all_are(behind, &7) {
                "the rest is as it came"
            } else {
                "THE REST IS CHANGED"
            };
            let _ = print!(rt; "removes {count}{}; {rest}", Items(entries));
        }
        Err(refusal) => refused(rt, refusal, all_are(stack, &7)),
    }
}

// Makes the removal that a line names: the count of entries, a clause and a literal.
pub fn removes(rt: &impl Print, case: Case<'_>, table: &Table<'_, '_>, stack: &mut [u32]) {
    let count = case.item(6, 0);
    let clause = case.item(6, 1);
    let literal = case.item(6, 2);
    let _ = print!(rt; "{clause} by {literal} ");
    match removal::remove(table, stack, count, Entry { clause, literal }) {
        Ok(made) => {
            let (first, _) = cut(stack, 12);
            let _ = print!(rt; "makes {made}:{}", Items(first));
        }
        Err(refusal) => {
            let mut room = [0u32; 20];
            let lent = case.items(5, &mut room);
            refused(rt, refusal, *stack == *lent);
        }
    }
}

// Rebuilds the values that a line has.
pub fn rebuilds(rt: &impl Print, case: Case<'_>, table: &Table<'_, '_>, stack: &Stack<'_>) {
    let mut lent_room = [0u8; 6];
    let lent = case.items(7, &mut lent_room);
    let mut vals_room = [0u8; 6];
    let vals = case.items(7, &mut vals_room);
    let _ = match rebuild(table, stack, vals) {
        Ok(()) => print!(rt; "gives{}", Items(vals)),
        Err(refusal) => {
            let values = if *vals == *lent {
                "the values are as they came"
            } else {
                "THE VALUES ARE CHANGED"
            };
            print!(rt; "{refusal}; {values}")
        }
    };
}
