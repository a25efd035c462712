// Open on one file: a file number gets a unit and the lowest-numbered free buffers.
ghost use Rattle.std.specs.Prelude.{◌≡◌, ◌<◌};
ghost use Rattle.call_open.specs.Open.{wish_of, open_refusal, open_on};

use area::row;
use channel::{Channel, is_declared};
use file::{File, FileChange, Wish, buffers_for, file_change, opened_file, sizes_fit};
use pool::FreeBuffers;

// What the arguments of an open ask for: flag 1 is output, 2 double, 4 sequence, 8 check.
pub fn wish_of(channel: u8, unit: u8, flags: u8, size: u16, rlen: u16) -> Wish
    ensures { result ≡ wish_of channel unit flags size rlen }
{
    Wish {
        channel,
        unit,
        output: flags % 2 == 1,
        double: flags / 2 % 2 == 1,
        sequence: flags / 4 % 2 == 1,
        check: flags / 8 % 2 == 1,
        size,
        rlen,
    }
}

// The refusal of an open, 0 for none.
fn open_refusal(
    c1: bool,
    bound: bool,
    f: File,
    c: Channel,
    free: FreeBuffers,
    w: u16,
    q: Wish,
) -> u8
    ensures { result ≡ open_refusal c1 bound f c free w q }
{
    let known = is_declared(c, q.unit as usize);
    let want = buffers_for(q.double);
    let fit = sizes_fit(w, q.sequence, q.check, q.size, q.rlen);
    let taken = f.opened | bound;
    let scarce = free.count < want;
    row(
        1,
        c1,
        row(3, !known, row(4, taken, row(7, scarce, row(13, !fit, 0)))),
    )
}

// An open of the file f on the channel c. `c1` is whether row 1 applies, `bound` whether the unit is bound.
pub fn open_on(
    c1: bool,
    bound: bool,
    f: File,
    c: Channel,
    free: FreeBuffers,
    w: u16,
    q: Wish,
) -> FileChange
    ensures { result ≡ open_on c1 bound f c free w q }
{
    let no = open_refusal(c1, bound, f, c, free, w, q);
    let after = opened_file(q, free.low, free.high);
    file_change(no, f, after)
}
