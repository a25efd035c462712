// What a frame comes to, played by the pack's inner forms on what it concerns: one file; a file, a channel and the post of a unit; the routines; or the whole
// state. Whoever holds the state reads the one file, the one channel and the one post at their places, and stores there what comes back.
// It knows nothing of lines: the frame is decoded before, and its answer written after.
#![tactic(auto)]

mod changes;
mod turns;

pub use changes::answer_or;
use channel::Channel;
use file::File;
use routines::{Post, Routines};
use session_frame::Answer;
pub use turns::{
    binding_on, channel_place, file_number, group_of, index_in, is_still, named_file, post_for,
    posted, record_on, request_on, routine_on, whole_refusal, whole_state,
};

// What a frame concerns.
#[derive(Clone, Copy)]
pub enum Group {
    // one file or none: all other frames
    Record,
    // a file, a channel and the post of a unit: ask and report
    Request,
    // a file and what a channel says of its unit: open and close
    Binding,
    // the whole state: fresh start, freeze and thaw
    Whole,
    // the routines: return and what runs
    Routine,
}

// What a call on one file comes to: its answer, the part of the area that it shows, and the file after it.
#[derive(Clone, Copy)]
pub struct Told {
    pub answer: Answer,
    pub start: usize,
    pub count: usize,
    pub file: File,
}

// The same of a call on a file, a channel and the post of a unit; `looks` says that the scheduler looks for a routine to enter, once the post is stored.
#[derive(Clone, Copy)]
pub struct Change {
    pub answer: Answer,
    pub start: usize,
    pub count: usize,
    pub file: File,
    pub channel: Channel,
    pub post: Post,
    pub looks: bool,
}

// What a call on the routines comes to: its answer, and the routines after it.
#[derive(Clone, Copy)]
pub struct RoutineTold {
    pub answer: Answer,
    pub routines: Routines,
}
