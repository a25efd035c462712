// How requests are served: what is proved of one channel over every history of calls, up to demand 3.
// It has theorems and no functions; the code stands in `channel_turns`.
#![tactic(auto)]
