// A buffer's bytes: whether they are those of what it holds, and whether it may hold that.
ghost use Rattle.std.specs.Prelude.{◌≡◌, cond, ◌+◌, ◌≤◌, length, drop};
ghost use Rattle.file.specs.Arrivals.{is_arrival};
ghost use Rattle.state_image.specs.Files.{buffer_size, arrival_from};
ghost use Rattle.image_sound.specs.Judging.{has_only_words, slot_judged, full_reads};

use codec::{four_at, two_at, word_at};
use file::is_arrival;
use state_image::{FULL, PART, arrival_at};

// None of the kinds of what a buffer holds.
pub const BAD: u8 = 4;

// Whether a buffer has no bytes besides its number, its kind and its words.
fn has_only_words(b: &[u8], at: usize) -> bool
    requires { at + buffer_size ≤ length b.now }
    ensures { result ≡ has_only_words (drop at b.now) }
{
    let first = two_at(b, at + 2);
    let place = two_at(b, at + 6);
    let found = word_at(b, at + 8);
    let sum = four_at(b, at + 16);
    (first == 0) & ((place == 0) & ((found == 0) & (sum == 0)))
}

// Whether a full block that was read is as it may be: how it arrived, and the place of get.
fn full_reads(b: &[u8], at: usize, sequence: bool, check: bool, words: u16) -> bool
    requires { at + buffer_size ≤ length b.now }
    ensures { result ≡ full_reads sequence check words (drop at b.now) }
{
    let a = arrival_at(b, at);
    let place = two_at(b, at + 6);
    let arrived = is_arrival(sequence, check, a);
    arrived & ((place <= words) & ((a.failed == 0) | (place == 0)))
}

// The kind, if all is well.
fn kind_if(kind: u8, good: bool) -> u8
    ensures { result ≡ cond good kind 4 }
{
    if good { kind } else { BAD }
}

// What a buffer of an open file holds: its kind if its bytes are its own and it may hold that, else `BAD`.
pub fn slot_judged(
    b: &[u8],
    at: usize,
    sequence: bool,
    check: bool,
    output: bool,
    size: u16,
    rlen: u16,
) -> u8
    requires { at + buffer_size ≤ length b.now }
    ensures { result ≡ slot_judged sequence check output size rlen (drop at b.now) }
{
    let kind = b[at + 1];
    let words = two_at(b, at + 4);
    if FULL < kind {
        return BAD;
    }
    if kind == FULL {
        let fits = (1 <= words) & (words <= size);
        if output {
            let only = has_only_words(b, at);
            return kind_if(kind, fits & only);
        }
        let reads = full_reads(b, at, sequence, check, words);
        return kind_if(kind, fits & reads);
    }
    let only = has_only_words(b, at);
    if kind == PART {
        let after = (words as u32) + (rlen as u32);
        return kind_if(kind, only & ((rlen <= words) & (after <= size as u32)));
    }
    kind_if(kind, only & (words == 0))
}
