// The tables of an accepted request: the book (the directory's schema and entries), the rows of the values held, the sets of items; and the plan of its
// answer. What their numbers stand for is said in specs/, once for all crates above.
#![tactic(auto)]

pub mod book;
pub mod held;
pub mod plan;
pub mod sets;
