// Output: the part-filled block of a file, when it is complete, and sealed.
ghost use Rattle.std.specs.Prelude.{◌≡◌, ◌<◌};
ghost use Rattle.file_output.specs.Parts.{has_part, part_start, part_length, is_complete, sealed_file as sealedOf};

use file::{File, filled_at, is_side, no_arrival, part_side, part_words, slot_at, start_at};

// Whether there is a part-filled buffer, which a seal needs.
pub fn has_part(f: File) -> bool
    ensures { result ≡ has_part f }
{
    is_side(part_side(f))
}

// Where the part-filled block begins in an area with w words for each buffer.
pub fn part_start(f: File, w: u16) -> usize
    ensures { (result ≡ part_start w f) × (result < 16777216) }
{
    start_at(f, w, part_side(f))
}

// How many words the part-filled block has.
pub fn part_length(f: File) -> u16
    ensures { result ≡ part_length f }
{
    part_words(slot_at(f, part_side(f)))
}

// Whether less than r remains of B in the part-filled block, so that it is sealed at once.
pub fn is_complete(f: File) -> bool
    ensures { result ≡ is_complete f }
{
    let next = (part_length(f) as u32) + (f.rlen as u32);
    (f.size as u32) < next
}

// The file with its part-filled block sealed: it did not arrive, and nothing was checked of it.
pub fn sealed(f: File) -> File
    ensures { result ≡ sealedOf f }
{
    let words = part_length(f);
    filled_at(f, part_side(f), words, no_arrival())
}
