// Runs the saved form's writer and reader on what is long: both sides of each limit, the longest form, clauses of 99 to 1,000 literals, and a book that
// is shrunk, saved, read back and rebuilt. It prints what came, and whether the lent buffers are as they should be. A buffer's old contents are sevens.
#![tactic(auto)]

mod back; // back.rt: a table and its stack written, and read back
mod book; // book.rt: a book with a rule of 1,000 literals
mod form; // form.rt: forms with long clauses laid down by hand
mod limits; // limits.rt: both sides of each limit

// Runs it all.
fn main(rt: HostRuntime) {
    limits::run(&rt);
    book::run(&rt);
}
