#![tactic(auto)]
// Reads a script whole: forms in brackets, one to a line, into a flat list of steps.
pub mod forms;
mod plan;
