// The truth of a request's filter for an entry: "and", "or" and "not" over the truths of its items.
#![tactic(auto)]

mod items;
pub mod tree;
