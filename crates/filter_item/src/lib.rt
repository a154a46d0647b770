// The truth of one item of a filter for an entry: the item goes through the rows of the entry's values, of which it is known what may be matched.
#![tactic(auto)]

pub mod item;
mod rows;
