// Return and what runs: the operator gives the routine that runs back, or asks which program runs. Each judges its rows of the refusal table, on the routines
// alone or on a whole state, and answers what runs and the state after it. Neither touches a file, a channel or a word.
#![tactic(auto)]

mod ons;
mod returns;

pub use ons::{return_on, running_on};
pub use returns::{give_back, what_runs};
use routines::{Program, Routines};
use state::State;

// The answer on the routines alone: the refusal, 0 for none; whether a waiting routine was entered; the program that runs after the call; the routines after it.
#[derive(Clone, Copy)]
pub struct RoutineChange {
    pub refusal: u8,
    pub entered: bool,
    pub program: Program,
    pub routines: Routines,
}

// The answer of both calls: the refusal, 0 for none; whether a waiting routine was entered; the program that runs after the call; the state after it.
#[derive(Clone, Copy)]
pub struct Ran {
    pub refusal: u8,
    pub entered: bool,
    pub program: Program,
    pub state: State,
}
