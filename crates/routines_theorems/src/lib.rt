// Special routines over every history: what is due is entered once, what runs is as high as all that wait, and programs resume in the reverse order.
// It has theorems and no functions; the code stands in `routines`.
#![tactic(auto)]
