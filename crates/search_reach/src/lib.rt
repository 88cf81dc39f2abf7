// What a search has reached, read off its labels: the map of the nodes within a length, and the nearest of marked nodes. What functions promise is in
// specs/Steps/.
#![tactic(auto)]

pub mod arrivals;
pub mod map;
pub mod nearest;
