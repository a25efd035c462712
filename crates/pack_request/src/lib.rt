// Requests and their reports: ask and report on a whole state, which judge the state, look the file and the channel up and store what
// changes. It knows nothing of open, get, put and the other calls.
#![tactic(auto)]

mod calls;
mod changes;

pub use calls::{ask, report, reported_words};
use state::State;
use word::Checked;

// The answer to an ask: the refusal, 0 for none; the channel's working unit after the call, 255 for none; the state after it.
#[derive(Clone, Copy)]
pub struct Asking {
    pub refusal: u8,
    pub working: u8,
    pub state: State,
}

// The answer to a report: the refusal, 0 for none; the result, 0 repeated, 7 repeated after the cleaner pass, 1 to 6 how the operation ended; the delivered block's check, if
// it delivers one; the working unit after the call, 255 for none; the part of the area that holds the block of a write; the state after the call.
#[derive(Clone, Copy)]
pub struct Reporting {
    pub refusal: u8,
    pub result: u8,
    pub delivery: Option<Checked>,
    pub working: u8,
    pub start: usize,
    pub count: usize,
    pub state: State,
}
