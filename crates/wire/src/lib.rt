// Commands and their bytes: the reader and the writer.
#![tactic(auto)]

pub mod build;
mod bytes;
pub mod reader;
pub mod writer;
