// Output: what a write sends, what its end does to the file, and whether anything is left to send.
ghost use Rattle.std.specs.Prelude.{◌≡◌, ◌<◌, ◌||◌};
ghost use Rattle.file.specs.Slots.{is_part, is_full};
ghost use Rattle.file_output.specs.Sends.{send_start, send_words, after_write, has_unsent};

use file::{File, Slot, full_words, oldest, slot_at, start_at, without_oldest};
use word::extra;

// Where the block that a write sends begins in an area with w words for each buffer.
pub fn send_start(f: File, w: u16) -> usize
    ensures { (result ≡ send_start w f) × (result < 16777216) }
{
    start_at(f, w, oldest(f))
}

// How many words a write sends, check word included.
pub fn send_words(f: File) -> usize
    ensures { (result ≡ send_words f) × (result < 65537) }
{
    let n = full_words(slot_at(f, oldest(f)));
    let e = extra(f.sequence, f.check);
    (n as usize) + (e as usize)
}

// The file after a write has ended: its block is gone if it was sent, and full still if not.
pub fn after_write(f: File, sent: bool) -> File
    ensures { result ≡ after_write sent f }
{
    if sent {
        return without_oldest(f);
    }
    f
}

// Whether a buffer has words that were not sent.
fn is_unsent(x: Slot) -> bool
    ensures { result ≡ (is_part x || is_full x) }
{
    matches!(x, Slot::Part(_) | Slot::Full { .. })
}

// Whether an output file has a part-filled or full buffer.
pub fn has_unsent(f: File) -> bool
    ensures { result ≡ has_unsent f }
{
    f.output & (is_unsent(f.low.slot) | is_unsent(f.high.slot))
}
