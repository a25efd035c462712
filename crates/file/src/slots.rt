// What a slot is, and the numbers in it; 0 where it has none.
ghost use Rattle.std.specs.Prelude.{◌≡◌};
ghost use Rattle.file.specs.Slots.{is_empty, is_taken, is_part, is_full, part_words, full_words, full_place, full_arrival, full_error};

use crate::arrivals::{error_due, no_arrival};
use crate::{Arrival, Slot};

// Whether a buffer is empty.
pub fn is_empty(x: Slot) -> bool
    ensures { result ≡ is_empty x }
{
    matches!(x, Slot::Empty)
}

// Whether a read has taken it.
pub fn is_taken(x: Slot) -> bool
    ensures { result ≡ is_taken x }
{
    matches!(x, Slot::Taken)
}

// Whether it is part-filled.
pub fn is_part(x: Slot) -> bool
    ensures { result ≡ is_part x }
{
    matches!(x, Slot::Part(_))
}

// Whether it holds a full block.
pub fn is_full(x: Slot) -> bool
    ensures { result ≡ is_full x }
{
    matches!(x, Slot::Full { .. })
}

// The words of a part-filled buffer.
pub fn part_words(x: Slot) -> u16
    ensures { result ≡ part_words x }
{
    match x {
        Slot::Part(n) => n,
        _ => 0,
    }
}

// The data words of a full block.
pub fn full_words(x: Slot) -> u16
    ensures { result ≡ full_words x }
{
    match x {
        Slot::Full { words, .. } => words,
        _ => 0,
    }
}

// The place of get in a full block.
pub fn full_place(x: Slot) -> u16
    ensures { result ≡ full_place x }
{
    match x {
        Slot::Full { at, .. } => at,
        _ => 0,
    }
}

// How a full block arrived; its errors have not been told yet. All zero where there is no block.
pub fn full_arrival(x: Slot) -> Arrival
    ensures { result ≡ full_arrival x }
{
    match x {
        Slot::Full { arrival, .. } => arrival,
        _ => no_arrival(),
    }
}

// The error of a full block that get has to tell next.
pub fn full_error(x: Slot) -> u8
    ensures { result ≡ full_error x }
{
    error_due(full_arrival(x))
}
