#![tactic(auto)]
// A workspace of names over any store: 32 registers, and the calls on them.
pub mod calls;
pub mod comparing;
pub mod faults;
pub mod fields;
pub mod looking;
pub mod making;
pub mod opening;
pub mod runs;
pub mod space;
