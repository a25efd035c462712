// An open file's bytes: whether they are its own, and whether it is sound by itself.
ghost use Rattle.std.specs.Prelude.{◌≡◌, ◌&&◌, ◌+◌, ◌≤◌, length, drop, get_or};
ghost use Rattle.codec.specs.Rows.{two_at};
ghost use Rattle.state_image.specs.Files.{file_size};
ghost use Rattle.image_sound.specs.Judging.{flags_tight, is_good_file, kinds_right, second_right};

use crate::slots::{BAD, slot_judged};
use codec::two_at;
use file::sizes_fit;
use state_image::{EMPTY, FULL, PART, TAKEN};
use word::BLOCK_NUMBERS;

// Whether the truths of a file are 0 or 1.
fn flags_tight(b: &[u8], at: usize) -> bool
    requires { at + file_size ≤ length b.now }
    ensures { result ≡ flags_tight (drop at b.now) }
{
    (b[at] <= 1)
        & ((b[at + 3] <= 1)
            & ((b[at + 4] <= 1)
                & ((b[at + 5] <= 1) & ((b[at + 6] <= 1) & ((b[at + 7] <= 1) & (b[at + 8] <= 1))))))
}

// Whether the two buffers of a file hold what they may beside each other, by the kinds of what they hold.
fn kinds_right(low: u8, high: u8, output: bool, turned: bool) -> bool
    ensures { result ≡ kinds_right low high output turned }
{
    let taken = (low == TAKEN) | (high == TAKEN);
    let both = (low == TAKEN) & (high == TAKEN);
    let part = (low == PART) | (high == PART);
    let parts = (low == PART) & (high == PART);
    let full = (low == FULL) & (high == FULL);
    (!both & (!output | !taken)) & ((!parts & (output | !part)) & (!turned | full))
}

// Whether the second buffer is one of m, above the first; or, in a single file, none.
fn second_right(m: u8, double: bool, first: u8, second: u8, high: u8) -> bool
    ensures { result ≡ second_right m double first second high }
{
    if double {
        return (first < second) & (second < m);
    }
    (second == 0) & (high == EMPTY)
}

// Whether the bytes at `at` are those of an open file that is sound by itself, in a pool of m buffers of w words.
pub fn file_judged(b: &[u8], at: usize, m: u8, w: u16) -> bool
    requires { at + file_size ≤ length b.now }
    ensures { result ≡ is_good_file m w (drop at b.now) }
{
    let flags = flags_tight(b, at);
    let output = b[at + 3] == 1;
    let sequence = b[at + 5] == 1;
    let check = b[at + 6] == 1;
    let size = two_at(b, at + 9);
    let rlen = two_at(b, at + 11);
    let number = two_at(b, at + 13);
    let low = slot_judged(b, at + 15, sequence, check, output, size, rlen);
    let high = slot_judged(b, at + 35, sequence, check, output, size, rlen);
    let first = b[at + 15];
    let sizes = sizes_fit(w, sequence, check, size, rlen);
    let kinds = kinds_right(low, high, output, b[at + 7] == 1);
    let second = second_right(m, b[at + 4] == 1, first, b[at + 35], high);
    let own = (b[at] == 1) & (!output | !(b[at + 8] == 1));
    (flags & ((low < BAD) & (high < BAD)))
        & (own & ((sizes & ((number as u32) < BLOCK_NUMBERS)) & ((first < m) & (second & kinds))))
}
