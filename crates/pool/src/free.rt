// How many buffers a pool may have, and which of them an open file holds.
ghost use Rattle.std.specs.Prelude.{◌≡◌};
ghost use Rattle.pool.specs.Free.{pool_fits, pool_sound, held_by};

use crate::{BUFFERS, WORDS};
use file::File;

// Whether a pool may have m buffers of w words.
pub fn pool_fits(m: u8, w: u16) -> bool
    ensures { result ≡ pool_fits m w }
{
    (1..=BUFFERS).contains(&m) & (1..=WORDS).contains(&w)
}

// Whether m and w are those of a pool, or of none.
pub fn pool_sound(m: u8, w: u16) -> bool
    ensures { result ≡ pool_sound m w }
{
    pool_fits(m, w) | ((m == 0) & (w == 0))
}

// Whether the file is open and holds buffer b.
pub fn holds(f: File, b: usize) -> bool
    ensures { result ≡ held_by b f }
{
    let low = f.low.number as usize;
    let high = f.high.number as usize;
    f.opened & ((low == b) | (f.double & (high == b)))
}
