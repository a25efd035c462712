// Get: what it finds in the oldest full block, and the file after it.
ghost use Rattle.std.specs.Prelude.{◌≡◌, ◌≤◌, ◌<◌};
ghost use Rattle.file_input.specs.Gets.{words_left, is_used_up, passed as passedOf, looked_at, words_given, slot_after, found_in, found_none, found as foundOf, after_found, after_get, get_from};

use crate::{Finding, Got};
use file::{
    File, Slot, after_told, error_told, full_arrival, full_error, full_place, full_words, is_side,
    oldest, slot_at, start_at, with_slot, without_oldest,
};

// How many words of a full block have not been given.
fn words_left(x: Slot) -> u16
    ensures { result ≡ words_left x }
{
    full_words(x).saturating_sub(full_place(x))
}

// Whether nothing remains of a full block.
fn is_used_up(x: Slot) -> bool
    ensures { result ≡ is_used_up x }
{
    matches!(x, Slot::Full { words, at, .. } if words <= at)
}

// The file without its oldest block where an earlier get used that up.
fn passed(f: File) -> File
    ensures { result ≡ passedOf f }
{
    if is_used_up(slot_at(f, oldest(f))) {
        return without_oldest(f);
    }
    f
}

// The file in which get looks: no block that was used up stands before the others.
fn looked_at(f: File) -> File
    ensures { result ≡ looked_at f }
{
    passed(passed(f))
}

// How many words of a block get gives: r, or what is left; none while an error is to be told.
fn words_given(rlen: u16, x: Slot) -> u16
    ensures { (result ≡ words_given rlen x) × (result ≤ words_left x) }
{
    if full_error(x) != 0 {
        return 0;
    }
    rlen.min(words_left(x))
}

// The block after it: the words are given, or the error is told, the read error before the check error. What was found stays with it.
fn slot_after(rlen: u16, x: Slot) -> Slot
    ensures { result ≡ slot_after rlen x }
{
    let n = full_words(x);
    let at = full_place(x);
    let given = words_given(rlen, x);
    Slot::Full {
        words: n,
        at: at + given,
        arrival: after_told(full_arrival(x)),
    }
}

// What get finds in a full block that begins at word `start` of the area.
fn found_in(start: usize, rlen: u16, x: Slot) -> Got
    requires { start < 16777216 }
    ensures { result ≡ found_in start rlen x }
{
    if full_error(x) != 0 {
        return Got::Error(error_told(full_arrival(x)));
    }
    let left = words_left(x);
    let start = start + full_place(x) as usize;
    if rlen <= left {
        return Got::Record {
            start,
            words: rlen as usize,
        };
    }
    Got::Leftover {
        start,
        words: left as usize,
    }
}

// What get finds where no block is full.
fn found_none(marked: bool) -> Got
    ensures { result ≡ found_none marked }
{
    if marked { Got::End } else { Got::Nothing }
}

// What get finds in a file in which it looks.
fn found(f: File, w: u16) -> Got
    ensures { result ≡ foundOf w f }
{
    let k = oldest(f);
    if is_side(k) {
        return found_in(start_at(f, w, k), f.rlen, slot_at(f, k));
    }
    found_none(f.marked)
}

// That file after get.
fn after_found(f: File) -> File
    ensures { result ≡ after_found f }
{
    let k = oldest(f);
    let y = slot_after(f.rlen, slot_at(f, k));
    with_slot(f, k, y, f.turned, f.block)
}

// The file after get.
pub fn after_get(f: File) -> File
    ensures { result ≡ after_get f }
{
    after_found(looked_at(f))
}

// Get: what it finds, and the file after it, in an area with w words for each buffer.
pub fn get(f: File, w: u16) -> Finding
    ensures { result ≡ get_from w f }
{
    let g = looked_at(f);
    Finding {
        got: found(g, w),
        file: after_found(g),
    }
}
