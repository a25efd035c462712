// Document 01's table of outcomes and attempts: what a report of one operation comes to, and where the unit's reel stands after it.
// Every function answers for any number. The crate knows nothing of channels' turns, of files, buffers or words.
#![tactic(auto)]

mod positions;
mod rules;

use channel::Request;
pub use positions::{noted, position_after};
pub use rules::{attempt_limit, noise_limit, refusal_number, result_number, verdict_of};

// The outcomes are 0 good, 1 redundancy, 2 incomplete word, 3 file mark, 4 end of medium: how many they are.
pub const OUTCOMES: u8 = 5;

// A report's length in words is 0 to 65,535; this number stands for a report that carries none.
pub const NO_LENGTH: u32 = 65536;

// Each count of a position is held at this number.
pub const MOST_PASSED: u16 = 32767;

// How an operation ends.
#[derive(Clone, Copy)]
pub enum Ending {
    Good,
    Opposite,
    MarkRead,
    MediumEnd,
    LostRedundancy,
    LostIncomplete,
}

// The refusal is document 01's number, which contracts and theorems above speak of. What a report comes to: refused with a number, an operation that makes a further attempt, or one that has ended.
#[derive(Clone, Copy)]
pub enum Verdict {
    Refused(u8),
    Repeats(Request),
    Ends(Ending),
}
