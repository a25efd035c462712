// Input on one file: which buffer a read takes, and the file after its end; what get finds in the oldest full block, with document 01's
// number and values for each answer, and the file after it. Words that get shows are named by start and length within the lent area; the
// part itself is cut out by whoever has the area. It knows nothing of channels and of other files.
#![tactic(auto)]

mod delivers;
mod gets;
mod shows;

pub use delivers::{
    block_fits, delivered, gave_back, has_empty, has_full, met_mark, taken_start, took_buffer,
};
use file::File;
pub use gets::{after_get, get};
pub use shows::{got_count, got_found, got_number, got_start};
use word::Checked;

// What get finds. A record or a leftover is named by where its words begin in the area, and how many they are; an error, of the check or of the read,
// comes with all that was found.
#[derive(Clone, Copy)]
pub enum Got {
    Record { start: usize, words: usize },
    Leftover { start: usize, words: usize },
    Error(Checked),
    End,
    Nothing,
}

// What get finds, and the file after it.
#[derive(Clone, Copy)]
pub struct Finding {
    pub got: Got,
    pub file: File,
}
