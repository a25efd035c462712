// How many buffers a list of openings and closings wants: a planner that proposes a pool size and each opening's buffers, and a check that accepts
// or refuses a proposal, whoever made it. The two share the judgement of the list and nothing else.
// An event is one number: 0 to 63 opens that file with a single buffer, 64 to 127 opens file 0 to 63 with a double one, 128 to 191 closes file 0 to 63.
// A row, what a proposal says of one opening, is one number: count of buffers, file, second buffer, first buffer, a byte each, highest first.
// Events and rows stay numbers: the definitions of specs/, which say what a good list and an acceptable proposal are, are about these numbers.
// It knows nothing of texts, nor of the files and pools of the pack.
#![tactic(auto)]

mod events;
mod greedy;
mod walk;

pub use events::judge;
pub use greedy::plan;
pub use walk::check;

// Files, openings and buffers, at most.
pub const FILES: usize = 64;

// Where a list is at fault: in its limit, or first in the event of that index.
#[derive(Clone, Copy, PartialEq, Eq, Debug)]
pub enum ListFault {
    Limit,
    Event(usize),
}

// What the planner proposes: a pool size and the first `count` of these rows.
#[derive(Clone, Copy)]
pub struct Proposal {
    pub size: u8,
    pub count: usize,
    pub rows: [u32; FILES],
}

// Why it proposes nothing: the list is at fault, refusal 1; or no pool within the limit will do, refusal 19.
#[derive(Clone, Copy, PartialEq, Eq, Debug)]
pub enum NoPlan {
    BadList,
    NoPool,
}

// Why a row, or the want of one, is not accepted: not as many rows as openings; a row of another file; another count of buffers than the opening asks for;
// a buffer outside the size; the same buffer twice; a buffer that serves two open files.
#[derive(Clone, Copy, PartialEq, Eq, Debug)]
pub enum Fault {
    Openings,
    OtherFile,
    OtherCount,
    Outside,
    Twice,
    Shared,
}

// Why the check accepts no proposal of this list, or not this one: the list is at fault, refusal 1; its size; or the first fault, at the row of that index.
#[derive(Clone, Copy, PartialEq, Eq, Debug)]
pub enum Rejection {
    BadList,
    Size,
    Row(Fault, usize),
}
