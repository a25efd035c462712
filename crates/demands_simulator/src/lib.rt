// A simulator's calls are a session: the lines that they give are those that the session of their frames prints, and the state area shows where that session
// stands. So every demand holds of them. It has no code. Read `specs/Simulated.antt`, then `proofs/Calls.antt`.
#![tactic(auto)]
