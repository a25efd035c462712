// The files over one pool of buffers: which buffers are free, and which file serves a unit of a channel.
// It only numbers the buffers and knows nothing of requests. When the files are sound stands in `state_sound`.
#![tactic(auto)]

mod free;
mod masks;
mod units;

pub use free::{holds, pool_fits, pool_sound};
pub use masks::{all_free, free_after, free_in, free_mask};
pub use units::{file_of, is_bound, serves};

// How many files there are; how many buffers a pool may have, and how many words a buffer.
pub const FILES: usize = 16;

pub const BUFFERS: u8 = 32;

pub const WORDS: u16 = 1024;

// The free buffers: how many, and the two lowest of them.
#[derive(Clone, Copy)]
pub struct FreeBuffers {
    pub count: usize,
    pub low: u8,
    pub high: u8,
}
