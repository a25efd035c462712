// Get, skip, put and seal on the one file that they concern: their rows of the refusal table, and what changes. The words that get finds are
// shown as a part of the lent area and are never copied; those of a put go into a part of it, and a block is sealed where it lies.
// It knows nothing of states.
#![tactic(auto)]

mod blocks;
mod get;
mod put;
mod seal;
mod skip;

use file::File;
use file_input::Got;
pub use get::{get_answer, get_on, got_words};
pub use put::{put_in, put_on};
pub use seal::{seal_in_area, seal_on};
pub use skip::{skip_on, skip_refusal};

// The answer of get: the refusal, or 0 and then what it found.
#[derive(Clone, Copy)]
pub struct GetAnswer {
    pub refusal: u8,
    pub got: Got,
}

// What get answers of the one file: the refusal, or 0 and then what it found; and the file after it.
#[derive(Clone, Copy)]
pub struct GetChange {
    pub refusal: u8,
    pub got: Got,
    pub file: File,
}
