// Entries found by the names asked for, names compared where they stand on two sheets, and entries below others, all by the numbers of the book.
#![tactic(auto)]

pub mod climb;
pub mod find;
pub mod names;
