// Reels as SIMH tape images: the next record of an image in lent bytes, the words of a block into a lent area, and a block or a mark
// written into lent bytes with parity. Every public function takes any bytes, words and places; a refused call changes nothing.
// It knows nothing of files, channels and units, nor of how an image is read or shown.
#![tactic(auto)]

mod read;
mod records;
mod write;

pub use read::block_words;
pub use records::next_record;
pub use write::{write_block, write_mark};

// What stands at a place of an image.
#[derive(Clone, Copy)]
pub enum Next {
    // Too few bytes have come to say.
    More,
    // The end of the image.
    End,
    // A tape mark; `next` is the place after it.
    Mark {
        next: usize,
    },
    // A block: where its data begins, how many words it has, and the place after it.
    Block {
        place: usize,
        words: usize,
        next: usize,
    },
    // The first faulty record: the number of its fault, and its place.
    Fault {
        number: u8,
        place: usize,
    },
}
