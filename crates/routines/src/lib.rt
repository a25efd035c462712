// Special routines by priority: which program runs, which were interrupted, and what the program scheduler makes of them at a look and at a return.
// What waits stands with the units: a caller passes the highest of it, and is told whether it was entered. Every function answers for any value.
// Beside the channels stands a post for each unit, with what its request names and what waits there. The crate knows nothing of requests, files or words, and a unit
// is a number to it.
#![tactic(auto)]

mod changes;
mod ranks;
mod right;
mod schedule;
mod table;

pub use changes::{answered, asked, gave_back, looked, waits_at};
use channel::{CHANNELS, UNITS};
pub use ranks::{
    due_named, higher, is_due, is_main, main_alone, main_program, nothing_due, waiting,
};
pub use right::{due_right, is_settled, programs_right};
pub use schedule::{give_back, look};
pub use table::{due_of, highest_in, naming_wrong, no_naming, no_routines, post_at, with_post};

// How many interrupted programs the push-down list holds.
pub const DEPTH: usize = 4;

// The highest priority of a routine.
pub const HIGHEST: u8 = 4;

// The rank of a routine of the highest priority: a rank is one above the priority, and 0 where there is none.
const TOP: u8 = HIGHEST + 1;

// A routine that is due at a unit, or that a request names: its rank, 0 for no routine, and its number. The crates above store and compare it as numbers.
#[derive(Clone, Copy)]
pub struct Due {
    pub rank: u8,
    pub routine: u8,
}

// A program: its rank, 0 for the main program, which has no priority; for a routine, the channel and the unit at which it became due, and its number.
#[derive(Clone, Copy)]
pub struct Program {
    pub rank: u8,
    pub channel: u8,
    pub unit: u8,
    pub routine: u8,
}

// The program that runs, and the push-down list of those that were interrupted: `count` of them, the last one pushed at place `count` - 1.
#[derive(Clone, Copy)]
pub struct Programs {
    pub running: Program,
    pub pushed: [Program; DEPTH],
    pub count: u8,
}

// What the scheduler did: whether it entered the waiting routine, which then waits no longer, and the programs after it.
#[derive(Clone, Copy)]
pub struct Scheduled {
    pub entered: bool,
    pub programs: Programs,
}

// What an ask says of a routine: whether it names one, its number, and its priority. The crates above make it and take it apart by these fields.
#[derive(Clone, Copy)]
pub struct Naming {
    pub given: bool,
    pub routine: u8,
    pub level: u8,
}

// What stands with one unit: the routine that its request names, and the one that waits there.
#[derive(Clone, Copy)]
pub struct Post {
    pub named: Due,
    pub due: Due,
}

// The posts of a channel's units.
#[derive(Clone, Copy)]
pub struct Posts {
    pub units: [Post; UNITS],
}

// What runs and was interrupted, and the posts of every channel's units.
#[derive(Clone, Copy)]
pub struct Routines {
    pub programs: Programs,
    pub posts: [Posts; CHANNELS],
}

// What a return did: whether it entered a waiting routine, and all after it.
#[derive(Clone, Copy)]
pub struct Back {
    pub entered: bool,
    pub routines: Routines,
}
