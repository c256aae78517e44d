// Definitions and theorems alone: when two records are the same; what a send, an acknowledgement, a throttle, a timeout check and an arrival do;
// what calls leave as it was; how much is in transit.
#![tactic(auto)]
