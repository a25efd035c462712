// A reel through the pack: file 0, single buffered, open on unit 0 of channel 0 over a pool of one buffer of 1,024 words, for writing or for reading; and which
// calls of the pack a record, a mark and a block of the reel come to. It makes the pack's own calls and no word of its own, and every call goes through
// `pack::answer`. It knows nothing of images, and nothing of how a record is read or shown.
#![tactic(auto)]

mod opens;
mod reads;
mod turns;
mod writes;

pub use opens::{again, begun};
pub use reads::{brought, got, met_mark};
pub use writes::{put, sealed, sent, sent_mark};

// The words of the one buffer, and so of the area that is lent.
pub const WORDS: usize = 1024;

// What the file is opened with: document 01's flags (1 output, 4 sequence, 8 check), the block size B and the record length r.
#[derive(Clone, Copy)]
pub struct Options {
    pub flags: u8,
    pub size: u16,
    pub rlen: u16,
}
