// The numbers of the link: constants, counters, times, the bits of a word, widths and ranges, and the table of refusals.
#![tactic(auto)]

pub mod bits;
pub mod clock;
pub mod consts;
pub mod counters;
pub mod limits;
pub mod refusals;
pub mod widths;
pub mod wrapping;
