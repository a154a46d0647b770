// #106: the keys that a search's order goes by: of each entry its smallest value of a type that may be read, and two keys compared.
#![tactic(auto)]

pub mod key;
pub mod order;
