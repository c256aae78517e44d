// What the timeout check makes of the sent commands, on the groups that it changes.
#![tactic(auto)]

pub mod step;
pub mod turn;
