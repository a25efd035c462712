// What the program prints is a history: each line of a session is one of the pack's calls, or no frame, and what is printed for it is that call's
// answer. So every demand holds of every session. It has no code. Read `specs/Played.antt`, then `proofs/Sessions.antt`.
#![tactic(auto)]
