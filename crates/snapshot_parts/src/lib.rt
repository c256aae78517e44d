// C-12: what a snapshot is made of: the record's numbers in their groups, then the bytes that its incoming slots store.
#![tactic(auto)]

pub mod row;
pub mod stored;
