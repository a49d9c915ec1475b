// Both sides of each limit, through elimination.
use crate::calls::eliminates;
use say::lay;
use table::Table;

// Eliminates, on a stack of sevens with room for all.
fn one(rt: &impl Print, label: &str, variables: usize, clauses: usize, lits: &[u16], offs: &[u32]) {
    let table = Table {
        variables,
        clauses,
        lits,
        offs,
    };
    let _ = print!(rt; "{label}: eliminate ");
    eliminates(rt, &table, &mut [7; 8004]);
    let _ = println!(rt;);
}

// 2,000 and 2,001 variables, 4,000 and 4,001 clauses.
fn limits_of_counts(rt: &impl Print) {
    let offs = [0; 4002];
    one(rt, "2000 variables", 2000, 0, &[0], &offs);
    one(rt, "2001 variables", 2001, 0, &[0], &offs);
    one(rt, "4000 clauses", 0, 4000, &[0], &offs);
    one(rt, "4001 clauses", 0, 4001, &[0], &offs);
}

// 1,000 and 1,001 literals in a clause.
fn limit_of_a_clause(rt: &impl Print) {
    let mut lits = [0; 1001];
    lay::codes(&mut lits, 1001);
    one(rt, "1000 literals in a clause", 2000, 1, &lits, &[0, 1000]);
    one(rt, "1001 literals in a clause", 2000, 1, &lits, &[0, 1001]);
}

// 16,000 and 16,001 literals in all: 16 clauses of 1,000, and a clause of one literal behind them.
fn limit_of_all_literals(rt: &impl Print) {
    let mut lits = [0; 16001];
    let mut offs = [0; 18];
    lay::all_literals(&mut lits, &mut offs);
    one(rt, "16000 literals in all", 2000, 16, &lits, &offs);
    one(rt, "16001 literals in all", 2000, 17, &lits, &offs);
}

// Every limit.
pub fn run(rt: &impl Print) {
    limits_of_counts(rt);
    limit_of_a_clause(rt);
    limit_of_all_literals(rt);
}
