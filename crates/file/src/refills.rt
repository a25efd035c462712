// The file with something else in one of its buffers.
ghost use Rattle.std.specs.Prelude.{◌≡◌};
ghost use Rattle.file.specs.Fills.{with_slot, turned_by, filled_at, emptied_at, without_oldest};

use crate::sides::oldest;
use crate::slots::is_full;
use crate::{Arrival, Buffer, File, Side, Slot};
use word::next_number;

// The file with x in that buffer, the order of its full blocks and its next block number.
pub fn with_slot(f: File, k: Side, x: Slot, turned: bool, block: u16) -> File
    ensures { result ≡ with_slot f k x turned block }
{
    match k {
        Side::Low => File {
            low: Buffer { slot: x, ..f.low },
            turned,
            block,
            ..f
        },
        Side::High => File {
            high: Buffer { slot: x, ..f.high },
            turned,
            block,
            ..f
        },
        Side::Neither => f,
    }
}

// Whether a block that becomes full in that buffer leaves the older one of two in the high buffer.
fn turned_by(f: File, k: Side) -> bool
    ensures { result ≡ turned_by f k }
{
    match k {
        Side::Low => is_full(f.high.slot),
        Side::High | Side::Neither => false,
    }
}

// A block of this many data words, that arrived so, is full in that buffer, the youngest; the block number goes up by one.
pub fn filled_at(f: File, k: Side, words: u16, arrival: Arrival) -> File
    ensures { result ≡ filled_at f k words arrival }
{
    let x = Slot::Full {
        words,
        at: 0,
        arrival,
    };
    let next = next_number(f.block);
    with_slot(f, k, x, turned_by(f, k), next)
}

// That buffer is empty.
pub fn emptied_at(f: File, k: Side) -> File
    ensures { result ≡ emptied_at f k }
{
    with_slot(f, k, Slot::Empty, false, f.block)
}

// The oldest full block is dropped, used up or not: what a skip does, and a write that is done with its block.
pub fn without_oldest(f: File) -> File
    ensures { result ≡ without_oldest f }
{
    emptied_at(f, oldest(f))
}
