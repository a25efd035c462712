// Seal on one file: its part-filled block gets its check word and is full.
ghost use Rattle.std.specs.Prelude.{◌≡◌};
ghost use Rattle.call_record.specs.Seal.{seal_refusal, seal_on, seal_on_area};

use crate::blocks::{seal_block, sums_spoilt};
use area::row;
use file::{File, FileChange, file_change};
use file_output::{has_part, sealed};

// The refusal of a seal of this file; c1 is what is known of row 1.
fn seal_refusal(c1: bool, f: File, w: u16, area: &[u64]) -> u8
    ensures { result ≡ seal_refusal c1 f w area.now }
{
    let part = has_part(f);
    let summed = f.opened & (f.output & (part & f.check));
    let c2 = sums_spoilt(summed, f, w, area);
    row(
        1,
        c1,
        row(
            2,
            c2,
            row(5, !f.opened, row(6, !f.output, row(9, !part, 0))),
        ),
    )
}

// Seal on one file, in an area with w words for each buffer: the refusal, or 0 and the block is sealed there.
pub fn seal_in_area(c1: bool, f: File, w: u16, area: &mut [u64]) -> u8
    ensures value { result ≡ seal_refusal c1 f w area.old }
    ensures area_after { area.new ≡ seal_on_area c1 f w area.old }
{
    let no = seal_refusal(c1, f, w, &area[..]);
    if no == 0 {
        seal_block(f, w, area);
    }
    no
}

// The same with the file after it.
pub fn seal_on(c1: bool, f: File, w: u16, area: &mut [u64]) -> FileChange
    ensures value { result ≡ seal_on c1 f w area.old }
    ensures area_after { area.new ≡ seal_on_area c1 f w area.old }
{
    let no = seal_in_area(c1, f, w, area);
    let after = sealed(f);
    file_change(no, f, after)
}
