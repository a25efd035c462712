// Which buffers are free, a bit for each: the lowest is found from the bits, and so is how many they are.
ghost use Rattle.std.specs.Prelude.{◌≡◌, eqb};
ghost use Rattle.area.specs.Masks.{mask_of};
ghost use Rattle.pool.specs.Free.{buffer_limit, held_by, is_held};
ghost use Rattle.pool.specs.Masks.{free_mask, all_free, free_in, free_after};

use crate::{BUFFERS, FILES, FreeBuffers};
use file::File;

// The bit of buffer b, none past the last.
fn bit_of(b: u8) -> u32
    ensures { result ≡ mask_of (eqb b) buffer_limit }
{
    if BUFFERS <= b {
        return 0;
    }
    1 << b
}

// The bits of m buffers.
pub fn all_free(m: u8) -> u32
    ensures { result ≡ all_free m }
{
    if BUFFERS <= m {
        return u32::MAX;
    }
    (1 << m) - 1
}

// The bits of the buffers that a file holds, if it is open.
fn held_bits(f: File) -> u32
    ensures { result ≡ mask_of (λ b. held_by b f) buffer_limit }
{
    if !f.opened {
        return 0;
    }
    let low = bit_of(f.low.number);
    if !f.double {
        return low;
    }
    low | bit_of(f.high.number)
}

// The bits of the buffers that open files hold.
fn all_held(files: [File; FILES]) -> u32
    ensures { result ≡ mask_of (is_held files) buffer_limit }
{
    let mut held: u32 = 0;
    for file in &files {
        held |= held_bits(*file);
    }
    held
}

// The mask that the files make: which of m buffers no open file holds.
pub fn free_mask(m: u8, files: [File; FILES]) -> u32
    ensures { result ≡ free_mask m files }
{
    all_free(m) & !all_held(files)
}

// How many bits of a mask are set, and the two lowest.
pub fn free_in(mask: u32) -> FreeBuffers
    ensures { result ≡ free_in mask }
{
    let low = mask.trailing_zeros() as u8;
    let rest = mask & !bit_of(low);
    let high = rest.trailing_zeros() as u8;
    let count = mask.count_ones() as usize;
    FreeBuffers { count, low, high }
}

// The free buffers after the file f has become g: an open clears the bits of its buffers, a close sets them.
pub fn free_after(mask: u32, f: File, g: File) -> u32
    ensures { result ≡ free_after mask f g }
{
    match (f.opened, g.opened) {
        (false, true) => mask & !held_bits(g),
        (true, false) => mask | held_bits(f),
        _ => mask,
    }
}
