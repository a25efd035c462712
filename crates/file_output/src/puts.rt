// Output: where a put goes, and what it makes of the file.
ghost use Rattle.std.specs.Prelude.{◌≡◌, ◌<◌};
ghost use Rattle.file_output.specs.Puts.{put_side, has_room, put_start, added as addedTo, after_put};

use crate::parts::{is_complete, sealed};
use file::{
    File, Side, Slot, empty_side, is_side, part_side, part_words, slot_at, start_at, with_slot,
};

// The buffer that a put adds to: the part-filled one, else the lowest empty one.
fn put_side(f: File) -> Side
    ensures { result ≡ put_side f }
{
    let k = part_side(f);
    if is_side(k) {
        return k;
    }
    empty_side(f)
}

// Whether there is such a buffer.
pub fn has_room(f: File) -> bool
    ensures { result ≡ has_room f }
{
    is_side(put_side(f))
}

// Where in an area with w words for each buffer the words of a put go.
pub fn put_start(f: File, w: u16) -> usize
    ensures { (result ≡ put_start w f) × (result < 16842752) }
{
    let k = put_side(f);
    start_at(f, w, k) + part_words(slot_at(f, k)) as usize
}

// The file with the r words of a put added. Words that would go past B are not.
pub fn added(f: File) -> File
    ensures { result ≡ addedTo f }
{
    let k = put_side(f);
    let n = part_words(slot_at(f, k));
    if (n as u32) + (f.rlen as u32) <= f.size as u32 {
        return with_slot(f, k, Slot::Part(n + f.rlen), false, f.block);
    }
    f
}

// The file after an accepted put.
pub fn after_put(f: File) -> File
    ensures { result ≡ after_put f }
{
    let g = added(f);
    if is_complete(g) {
        return sealed(g);
    }
    g
}
