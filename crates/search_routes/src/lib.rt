// The route read off the labels of a search, and written.
#![tactic(auto)]

pub mod find;
pub mod trace;
