// The cases that document 01 marks P, over the definitions of the crates below. No code of its own: see specs/Cases.antt.
#![tactic(auto)]
