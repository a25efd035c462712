// Turns on one channel: the unit that works, the scans for priority and for ordinary requests; a start, a thaw, an ask and a report.
// A channel goes in and comes out by value, and every function answers for any channel value and any number.
// Whether the pack is frozen is a parameter. The crate knows nothing of files, buffers or words.
#![tactic(auto)]

mod desks;
mod moves;
mod scans;
mod starts;
mod turns;

use channel::{Channel, Position, Turn, UNITS};
use channel_outcomes::Verdict;
pub use desks::desk_of;
pub use moves::{ask_move, book_move, judge_turn};
pub use starts::{ask, moved_to, thaw};
pub use turns::{book, judge, report, working_number};

// The number of the last unit.
const LAST: usize = UNITS - 1;

// What a channel's turns go by: the marks at which its scans begin, and a bit for each unit that is worked for, that waits with a priority request, and
// that waits with an ordinary one.
#[derive(Clone, Copy)]
pub struct Desk {
    pub mark: u8,
    pub urgent: u8,
    pub working: u16,
    pub priority: u16,
    pub ordinary: u16,
}

// What a call makes of a channel: how its unit stands and where the reel is, the marks, the unit that starts then, and the one that is worked for
// after all, 255 for none.
#[derive(Clone, Copy)]
pub struct Move {
    pub turn: Turn,
    pub position: Position,
    pub mark: u8,
    pub urgent: u8,
    pub starts: Option<usize>,
    pub working: u8,
}

// The answer to an ask, and the channel after it.
#[derive(Clone, Copy)]
pub struct Asked {
    pub accepted: bool,
    pub channel: Channel,
}

// What a report came to, and the channel after it.
#[derive(Clone, Copy)]
pub struct Reported {
    pub verdict: Verdict,
    pub channel: Channel,
}
