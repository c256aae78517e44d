// The format of a script (SCRIPT.md): its frames, its lines, and the hash of a row of numbers.
#![tactic(auto)]

pub mod frames;
pub mod line;
pub mod row;
