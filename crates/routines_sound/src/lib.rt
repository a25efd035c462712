// Whether the special routines of a state are right beside its channels: what runs and was interrupted, the posts of all units, and that nothing is left to enter.
// It judges any value, and knows nothing of files or of what a call does.
#![tactic(auto)]

mod judge;

pub use judge::routines_right;
