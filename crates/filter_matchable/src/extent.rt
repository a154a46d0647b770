// What the filter of a search is judged for.
use rules::Edition;

// The number of the search's base and its subset; how many lines the filter has, the ranks of its types, and the logic that it is evaluated by.
#[derive(Clone, Copy)]
pub struct Extent {
    pub base: usize,
    pub subset: u64,
    pub lines: usize,
    pub ranks: u64,
    pub edition: Edition,
}
