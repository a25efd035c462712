// Open and close: what an open's sizes must be, and the file after each.
ghost use Rattle.std.specs.Prelude.{◌≡◌};
ghost use Rattle.file.specs.Sizes.{sizes_fit, buffers_for, empty_buffer, second_number, opened_file, closed_file};

use crate::{Buffer, File, Slot, Wish};
use word::extra;

// Whether r is 1 to B, and B with a check word fits a buffer of w words.
pub fn sizes_fit(w: u16, sequence: bool, check: bool, size: u16, rlen: u16) -> bool
    ensures { result ≡ sizes_fit w sequence check size rlen }
{
    let whole = (size as u32) + (extra(sequence, check) as u32);
    (1 <= rlen) & ((rlen <= size) & (whole <= w as u32))
}

// How many buffers an open asks for.
pub fn buffers_for(double: bool) -> usize
    ensures { result ≡ buffers_for double }
{
    if double { 2 } else { 1 }
}

fn empty_buffer(number: u8) -> Buffer
    ensures { result ≡ empty_buffer number }
{
    Buffer {
        number,
        slot: Slot::Empty,
    }
}

// The number of the second buffer; a single file has none.
fn second_number(double: bool, high: u8) -> u8
    ensures { result ≡ second_number double high }
{
    if double { high } else { 0 }
}

// The file as it is opened, with these buffers, the lower number first. A single file has the first alone.
pub fn opened_file(q: Wish, low: u8, high: u8) -> File
    ensures { result ≡ opened_file q low high }
{
    File {
        opened: true,
        channel: q.channel,
        unit: q.unit,
        output: q.output,
        double: q.double,
        sequence: q.sequence,
        check: q.check,
        size: q.size,
        rlen: q.rlen,
        low: empty_buffer(low),
        high: empty_buffer(second_number(q.double, high)),
        turned: false,
        block: 1,
        marked: false,
    }
}

// A file that is not open: all zero.
pub fn closed_file() -> File
    ensures { result ≡ closed_file }
{
    File {
        opened: false,
        channel: 0,
        unit: 0,
        output: false,
        double: false,
        sequence: false,
        check: false,
        size: 0,
        rlen: 0,
        low: empty_buffer(0),
        high: empty_buffer(0),
        turned: false,
        block: 0,
        marked: false,
    }
}
