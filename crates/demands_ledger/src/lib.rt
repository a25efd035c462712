// The ledger of a file: what was asked for, put, sealed, handed out, delivered and given since its open, noted from call to call.
// It has no code: its definitions say what demand 2 promises of blocks and records, and its theorems prove it of every history in which
// the pack alone writes the lent area.
#![tactic(auto)]
