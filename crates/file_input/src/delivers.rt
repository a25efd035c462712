// Input: what a read takes, and what its end does to the file.
ghost use Rattle.std.specs.Prelude.{◌≡◌, ◌<◌};
ghost use Rattle.file.specs.Sides.{start_at, taken_side};
ghost use Rattle.file_input.specs.Delivers.{has_empty, took_buffer, block_fits, delivered as deliveredTo, gave_back, met_mark, has_full};

use file::{
    Arrival, File, Slot, emptied_at, empty_side, filled_at, is_side, oldest, start_at, taken_side,
    with_slot,
};
use word::extra;

// Whether there is an empty buffer, which a read needs.
pub fn has_empty(f: File) -> bool
    ensures { result ≡ has_empty f }
{
    is_side(empty_side(f))
}

// The file after an accepted read: its lowest empty buffer is taken.
pub fn took_buffer(f: File) -> File
    ensures { result ≡ took_buffer f }
{
    with_slot(f, empty_side(f), Slot::Taken, false, f.block)
}

// Where the taken buffer begins in an area with w words for each buffer.
pub fn taken_start(f: File, w: u16) -> usize
    ensures { (result ≡ start_at f w (taken_side f)) × (result < 16777216) }
{
    start_at(f, w, taken_side(f))
}

// Whether a delivered block may have n words, its check word among them.
pub fn block_fits(f: File, n: usize) -> bool
    ensures { result ≡ block_fits f n }
{
    let e = extra(f.sequence, f.check) as usize;
    let least = 1 + e;
    let most = (f.size as usize) + e;
    (least..=most).contains(&n)
}

// The file after a good end, or a permanent error with words: the taken buffer has a full block of this many data words, that arrived so.
pub fn delivered(f: File, words: u16, arrival: Arrival) -> File
    ensures { result ≡ deliveredTo f words arrival }
{
    filled_at(f, taken_side(f), words, arrival)
}

// The file after a read's permanent error without words: the taken buffer is empty.
pub fn gave_back(f: File) -> File
    ensures { result ≡ gave_back f }
{
    emptied_at(f, taken_side(f))
}

// The file after a read that met a file mark: the taken buffer is empty, and the mark is kept in mind.
pub fn met_mark(f: File) -> File
    ensures { result ≡ met_mark f }
{
    File {
        marked: true,
        ..gave_back(f)
    }
}

// Whether there is a full buffer, which a skip and a write need.
pub fn has_full(f: File) -> bool
    ensures { result ≡ has_full f }
{
    is_side(oldest(f))
}
