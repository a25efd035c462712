// Put on one file: words added, and the block sealed at once if no more fit.
ghost use Rattle.std.specs.Prelude.{◌≡◌};
ghost use Rattle.call_record.specs.Put.{sums, put_refusal, filled_area, put_on, put_on_area};

use crate::blocks::{seal_block, sums_spoilt};
use area::row;
use file::{File, FileChange, file_change};
use file_output::{added, after_put, has_room, is_complete, put_start};

// Whether a put of n words is taken and sums the block: it is complete then, and check sums are chosen.
fn is_summed(f: File, n: usize) -> bool
    ensures { result ≡ sums f n }
{
    let fits = n == f.rlen as usize;
    (f.opened & (f.output & (has_room(f) & fits))) & (is_complete(added(f)) & f.check)
}

// The refusal of a put of these words to this file; c1 is what is known of row 1.
fn put_refusal(c1: bool, f: File, w: u16, area: &[u64], words: &[u64]) -> u8
    ensures { result ≡ put_refusal c1 f w area.now words.now }
{
    let right = area::are_words(words);
    let summed = is_summed(f, words.len());
    let spoilt = sums_spoilt(summed, f, w, area);
    let room = has_room(f);
    let fits = words.len() == f.rlen as usize;
    let c2 = !right | spoilt;
    let shape = row(9, !room, row(13, !fits, 0));
    row(
        1,
        c1,
        row(2, c2, row(5, !f.opened, row(6, !f.output, shape))),
    )
}

// The words go after those of the part-filled buffer, or from the start of the lowest empty one.
fn fill(f: File, w: u16, area: &mut [u64], words: &[u64])
    ensures { area.new ≡ filled_area w f words.now area.old }
{
    area::copy_in(area, put_start(f, w), words);
}

// Put on one file, in an area with w words for each buffer: the refusal, or 0 and the words are there.
pub fn put_in(c1: bool, f: File, w: u16, area: &mut [u64], words: &[u64]) -> u8
    ensures value { result ≡ put_refusal c1 f w area.old words.now }
    ensures area_after { area.new ≡ put_on_area c1 f w area.old words.now }
{
    let no = put_refusal(c1, f, w, &area[..], words);
    if no != 0 {
        return no;
    }
    fill(f, w, area, words);
    let g = added(f);
    if is_complete(g) {
        seal_block(g, w, area);
    }
    no
}

// The same with the file after it.
pub fn put_on(c1: bool, f: File, w: u16, area: &mut [u64], words: &[u64]) -> FileChange
    ensures value { result ≡ put_on c1 f w area.old words.now }
    ensures area_after { area.new ≡ put_on_area c1 f w area.old words.now }
{
    file_change(put_in(c1, f, w, area, words), f, after_put(f))
}
