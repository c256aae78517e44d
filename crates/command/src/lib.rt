// The twelve commands: what each holds, its byte, its size, and the width of each of its numbers.
#![tactic(auto)]

pub mod bytes;
pub mod fields;
pub mod layout;
pub mod rows;
