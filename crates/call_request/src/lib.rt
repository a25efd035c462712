// Ask and report on the one file and the one channel that they concern, or by one unit and its channel's desk: their rows of the refusal table, the words that a report brings or hands
// out, and what changes, the routines too. It knows nothing of states.
#![tactic(auto)]

mod asks;
mod blocks;
mod effects;
mod named;
mod reports;

pub use asks::{ask_moved, ask_on, asked_file};
pub use blocks::reported_file;
use channel::Channel;
use channel_turns::Move;
use file::File;
pub use named::{answers_request, asked_routines, reported_routines};
pub use reports::{report_moved, report_on};
use word::Checked;

// The answer to an ask: the refusal, 0 for none; the working unit after it, 255 for none; the file and the channel after it.
#[derive(Clone, Copy)]
pub struct AskChange {
    pub refusal: u8,
    pub working: u8,
    pub file: File,
    pub channel: Channel,
}

// The answer to an ask by one unit: the refusal, 0 for none, and what it makes of the unit and its channel.
#[derive(Clone, Copy)]
pub struct AskMove {
    pub refusal: u8,
    pub change: Move,
}

// What a report that is booked means for the file of its unit: the taken buffer is full, with the error of the read, 0 for none; it is empty
// and a file mark was met, or is empty again; the block that a write sent is gone; or the file is as it was.
#[derive(Clone, Copy)]
pub enum Effect {
    Delivers(u8),
    MeetsMark,
    GivesBack,
    Sends,
    Keeps,
}

// The answer to a report: the refusal, 0 for none; the result, 0 repeated, 7 repeated after the cleaner pass, 1 to 6 how the operation ended; the delivered block's check, if
// it delivers one; the working unit after it, 255 for none; the part of the area that holds the block of a write; the file and the channel after it.
#[derive(Clone, Copy)]
pub struct ReportChange {
    pub refusal: u8,
    pub result: u8,
    pub delivery: Option<Checked>,
    pub working: u8,
    pub start: usize,
    pub count: usize,
    pub file: File,
    pub channel: Channel,
}

// The answer to a report by one unit: the same, but what it means for the file and what was found of the words given, and what it makes of the unit and
// its channel.
#[derive(Clone, Copy)]
pub struct ReportMove {
    pub refusal: u8,
    pub result: u8,
    pub delivery: Option<Checked>,
    pub start: usize,
    pub count: usize,
    pub effect: Effect,
    pub found: Checked,
    pub change: Move,
}
