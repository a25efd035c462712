// What put and seal share: the words that a part-filled buffer holds, and a block sealed where it lies in the area.
ghost use Rattle.std.specs.Prelude.{◌≡◌, not, ◌&&◌};
ghost use Rattle.call_record.specs.Blocks.{held_right, sealed_in, sealed_area};

use file::File;
use file_output::{part_length, part_start};

// Whether a call sums a word of 2^36 or more that the part-filled buffer holds. The words are looked at only if it sums.
pub fn sums_spoilt(summed: bool, f: File, w: u16, area: &[u64]) -> bool
    ensures { result ≡ (summed && not (held_right w f area.now)) }
{
    if summed {
        let at = part_start(f, w);
        let n = part_length(f) as usize;
        return !area::part_are_words(area, at, n);
    }
    false
}

// Seals the block of n data words in the buffer of w words that begins at word `at` of the area. No word outside that buffer changes.
pub fn seal_in(
    area: &mut [u64],
    at: usize,
    w: u16,
    n: u16,
    sequence: bool,
    check: bool,
    number: u16,
)
    ensures { area.new ≡ sealed_in at w n sequence check number area.old }
{
    if area.len() <= at {
        return;
    }
    let end = area.len().min(at + w as usize);
    block::seal(&mut area[at..end], n as usize, sequence, check, number);
}

// Seals the part-filled block of a file where it lies.
pub fn seal_block(f: File, w: u16, area: &mut [u64])
    ensures { area.new ≡ sealed_area w f area.old }
{
    let at = part_start(f, w);
    let n = part_length(f);
    seal_in(area, at, w, n, f.sequence, f.check, f.block);
}
