// The rounds of a search over the runs of a kept network: Dijkstra's algorithm with one label for each run.
#![tactic(auto)]

pub mod begin;
pub mod explore;
pub mod search;
pub mod settle;
