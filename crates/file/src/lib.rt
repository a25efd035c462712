// One file by value: its one or two buffers, what each of them holds, and which of them is meant; the file with something else in a buffer;
// how a block arrived; the sizes of a file, and the file as it is opened and as it is closed.
// It only numbers the buffers and knows nothing of channels, of other files, or of the words of an area.
#![tactic(auto)]

mod arrivals;
mod changes;
mod refills;
mod sides;
mod sizes;
mod slots;

pub use arrivals::{after_told, error_told, is_arrival, is_no_arrival, no_arrival};
pub use changes::file_change;
pub use refills::{emptied_at, filled_at, with_slot, without_oldest};
pub use sides::{empty_side, is_side, oldest, part_side, slot_at, start_at, taken_side};
pub use sizes::{buffers_for, closed_file, opened_file, sizes_fit};
pub use slots::{
    full_arrival, full_error, full_place, full_words, is_empty, is_full, is_part, is_taken,
    part_words,
};
use word::Checked;

// The read errors that get tells of a block that was kept: an unrecoverable redundancy, and an incomplete word.
pub const REDUNDANCY_ERROR: u8 = 4;

pub const INCOMPLETE_ERROR: u8 = 10;

// How a full block arrived: the error of the read that brought it, 4 or 10, 0 for none and 0 once it was told; and what its check found at
// delivery, the error 0 once it was told. All zero in a block that was sealed.
#[derive(Clone, Copy)]
pub struct Arrival {
    pub failed: u8,
    pub check: Checked,
}

// What one buffer of an open file holds: nothing; what a read is to bring; n words that were put; or a full block of so many data words,
// with the place of get in it and how it arrived.
#[derive(Clone, Copy)]
pub enum Slot {
    Empty,
    Taken,
    Part(u16),
    Full {
        words: u16,
        at: u16,
        arrival: Arrival,
    },
}

// A buffer of the pool, and what it holds.
#[derive(Clone, Copy)]
pub struct Buffer {
    pub number: u8,
    pub slot: Slot,
}

// A file. `size` is B and `rlen` is r; `low` has the lower number of its buffers; `turned` says that of two full blocks the one in `high` is
// the older; `block` is the next block number; `marked` says that a file mark has been read.
#[derive(Clone, Copy)]
pub struct File {
    pub opened: bool,
    pub channel: u8,
    pub unit: u8,
    pub output: bool,
    pub double: bool,
    pub sequence: bool,
    pub check: bool,
    pub size: u16,
    pub rlen: u16,
    pub low: Buffer,
    pub high: Buffer,
    pub turned: bool,
    pub block: u16,
    pub marked: bool,
}

// Which of a file's buffers is meant.
#[derive(Clone, Copy)]
pub enum Side {
    Low,
    High,
    Neither,
}

// What a call on one file answers: the refusal, 0 for none, and the file after it, which is the one passed if it is refused.
#[derive(Clone, Copy)]
pub struct FileChange {
    pub refusal: u8,
    pub file: File,
}

// What an open asks for.
#[derive(Clone, Copy)]
pub struct Wish {
    pub channel: u8,
    pub unit: u8,
    pub output: bool,
    pub double: bool,
    pub sequence: bool,
    pub check: bool,
    pub size: u16,
    pub rlen: u16,
}
