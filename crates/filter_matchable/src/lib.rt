// What of an entry a filter may match: FilterMatch on the types that occur in the filter and on the entry's values, asked once, before any item.
#![tactic(auto)]

pub mod extent;
pub mod mask;
pub mod matchable;
