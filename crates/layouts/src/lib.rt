#![tactic(auto)]
// The two layouts of a store of cells: over bytes, and over 64-bit words.
pub mod bytes;
pub mod words;
