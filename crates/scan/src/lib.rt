#![tactic(auto)]
// Splits tokens off a script, says what each may be taken for, reads the calls, and displays what was read.
pub mod args;
pub mod reader;
pub mod scan;
pub mod show;
pub mod types;
pub mod words;
