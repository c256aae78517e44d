// The promises about runs of calls: theorems alone.
#![tactic(auto)]
