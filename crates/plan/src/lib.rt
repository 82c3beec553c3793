#![tactic(auto)]
// Planning an arena for a list of names.
pub mod names;
pub mod tallies;
