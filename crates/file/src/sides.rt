// Which of a file's buffers is meant.
ghost use Rattle.std.specs.Prelude.{◌≡◌, ◌<◌};
ghost use Rattle.file.specs.Sides.{buffer_at, slot_at, start_at, is_side, lower, empty_side, taken_side, part_side, oldest as oldestOf};

use crate::slots::{is_empty, is_full, is_part, is_taken};
use crate::{Buffer, File, Side, Slot};

// The buffer that is meant; an empty one for none.
pub fn buffer_at(f: File, k: Side) -> Buffer
    ensures { result ≡ buffer_at f k }
{
    match k {
        Side::Low => f.low,
        Side::High => f.high,
        Side::Neither => Buffer {
            number: 0,
            slot: Slot::Empty,
        },
    }
}

// What that buffer holds.
pub fn slot_at(f: File, k: Side) -> Slot
    ensures { result ≡ slot_at f k }
{
    buffer_at(f, k).slot
}

// Where that buffer begins in an area with w words for each buffer.
pub fn start_at(f: File, w: u16, k: Side) -> usize
    ensures { (result ≡ start_at f w k) × (result < 16777216) }
{
    (buffer_at(f, k).number as usize) * (w as usize)
}

pub fn is_side(k: Side) -> bool
    ensures { result ≡ is_side k }
{
    matches!(k, Side::Low | Side::High)
}

// The lower of the buffers that pass a test, by whether each does.
fn lower_of(low: bool, high: bool) -> Side
    ensures { result ≡ lower low high }
{
    if low {
        return Side::Low;
    }
    if high {
        return Side::High;
    }
    Side::Neither
}

// The lowest empty buffer. A single file has no second one.
pub fn empty_side(f: File) -> Side
    ensures { result ≡ empty_side f }
{
    lower_of(is_empty(f.low.slot), f.double & is_empty(f.high.slot))
}

// The buffer that a read has taken.
pub fn taken_side(f: File) -> Side
    ensures { result ≡ taken_side f }
{
    lower_of(is_taken(f.low.slot), is_taken(f.high.slot))
}

// The part-filled buffer.
pub fn part_side(f: File) -> Side
    ensures { result ≡ part_side f }
{
    lower_of(is_part(f.low.slot), is_part(f.high.slot))
}

// The buffer with the oldest full block.
pub fn oldest(f: File) -> Side
    ensures { result ≡ oldestOf f }
{
    let low = is_full(f.low.slot);
    let high = is_full(f.high.slot);
    lower_of(low & !(high & f.turned), high)
}
