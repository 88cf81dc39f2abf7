// What a kept network is: the test of kept bytes, the used legs that it gathers, and the index of runs that it fills for a search. The definitions are in
// specs/.
#![tactic(auto)]

pub mod corners;
pub mod kept;
pub mod legs;
