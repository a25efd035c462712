// The sheet and the demands speak of the same numbers: theorems, no code.
#![tactic(auto)]
