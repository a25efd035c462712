// The demands: what the user asked for, as short statements over the pack's own definitions, each proved by one citation.
// It has no code. Read `specs/Demands.antt` and its neighbours beside the demands in the user's words, then `proofs/Demands.antt`.
#![tactic(auto)]
