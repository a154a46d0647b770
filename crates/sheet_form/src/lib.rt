// The forms of lines: whether a sheet has a line's kind and allows its numbers, wherever the line stands. It judges a line that was
// taken, and reads no byte.
#![tactic(auto)]

mod bounds;
pub mod columns;
