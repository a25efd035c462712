// Whether the files are sound: what one buffer may hold, each file by itself, and every two of them. Document 01's paragraph on a state that is passed
// back, clause by clause.
ghost use Rattle.std.specs.Prelude.{◌≡◌, ◌≤◌, drop};
ghost use Rattle.state_sound.specs.Files.{is_no_buffer, full_fits, part_fits, place_fits, is_unread, in_range, has_buffers, taken_count, taken_right, full_right, parts_held, part_right, place_right, rest_is_zero, open_sound, is_blank, file_sound, share_buffer, apart, files_sound};
ghost use Rattle.area.specs.Lists.{one_if, all_of, all_pairs};

use file::{
    Buffer, File, Slot, full_arrival, full_place, is_arrival, is_empty, is_full, is_no_arrival,
    is_part, is_taken, sizes_fit,
};
use pool::{FILES, holds, serves};
use word::BLOCK_NUMBERS;

fn is_no_buffer(b: Buffer) -> bool
    ensures { result ≡ is_no_buffer b }
{
    (b.number == 0) & is_empty(b.slot)
}

// A full block has 1 to B data words.
fn full_fits(size: u16, x: Slot) -> bool
    ensures { result ≡ full_fits size x }
{
    match x {
        Slot::Full { words, .. } => (1 <= words) & (words <= size),
        Slot::Empty | Slot::Taken | Slot::Part(_) => true,
    }
}

// A part-filled buffer has r words or more, and room for r.
fn part_fits(size: u16, rlen: u16, x: Slot) -> bool
    ensures { result ≡ part_fits size rlen x }
{
    match x {
        Slot::Part(n) => {
            let after = u32::from(n) + u32::from(rlen);
            (rlen <= n) & (after <= u32::from(size))
        }
        Slot::Empty | Slot::Taken | Slot::Full { .. } => true,
    }
}

// The place of get is not past its block, and at its beginning while its read error is to be told.
fn place_fits(x: Slot) -> bool
    ensures { result ≡ place_fits x }
{
    match x {
        Slot::Full { words, at, arrival } => { (at <= words) & ((arrival.failed == 0) | (at == 0)) }
        Slot::Empty | Slot::Taken | Slot::Part(_) => true,
    }
}

// A block that has no place of get, and that did not arrive.
fn is_unread(x: Slot) -> bool
    ensures { result ≡ is_unread x }
{
    (full_place(x) == 0) & is_no_arrival(full_arrival(x))
}

// The sizes, the block number and how the blocks arrived are in their ranges.
fn in_range(w: u16, f: File) -> bool
    ensures { result ≡ in_range w f }
{
    let sizes = sizes_fit(w, f.sequence, f.check, f.size, f.rlen);
    let a = is_arrival(f.sequence, f.check, full_arrival(f.low.slot));
    let b = is_arrival(f.sequence, f.check, full_arrival(f.high.slot));
    sizes & ((u32::from(f.block) < BLOCK_NUMBERS) & (a & b))
}

// The file has its one or two buffers, of m.
fn has_buffers(m: u8, f: File) -> bool
    ensures { result ≡ has_buffers m f }
{
    let first = f.low.number < m;
    if f.double {
        first & ((f.low.number < f.high.number) & (f.high.number < m))
    } else {
        first & is_no_buffer(f.high)
    }
}

// How many of the file's buffers are taken.
pub fn taken_count(f: File) -> u8
    ensures { (result ≡ taken_count f) × (result ≤ 2) }
{
    u8::from(is_taken(f.low.slot)) + u8::from(is_taken(f.high.slot))
}

// None is taken in an output file, and one at most in an input file.
fn taken_right(f: File) -> bool
    ensures { result ≡ taken_right f }
{
    taken_count(f) <= u8::from(!f.output)
}

fn full_right(f: File) -> bool
    ensures { result ≡ full_right f }
{
    full_fits(f.size, f.low.slot) & full_fits(f.size, f.high.slot)
}

// How many of the file's buffers are part-filled.
fn parts_held(f: File) -> u8
    ensures { result ≡ parts_held f }
{
    u8::from(is_part(f.low.slot)) + u8::from(is_part(f.high.slot))
}

// None is part-filled in an input file, and one at most in an output file.
fn part_right(f: File) -> bool
    ensures { result ≡ part_right f }
{
    let a = part_fits(f.size, f.rlen, f.low.slot);
    let b = part_fits(f.size, f.rlen, f.high.slot);
    (parts_held(f) <= u8::from(f.output)) & (a & b)
}

fn place_right(f: File) -> bool
    ensures { result ≡ place_right f }
{
    place_fits(f.low.slot) & place_fits(f.high.slot)
}

// What has no meaning in an open file is zero.
fn rest_is_zero(f: File) -> bool
    ensures { result ≡ rest_is_zero f }
{
    let full = is_full(f.low.slot) & is_full(f.high.slot);
    let unread = is_unread(f.low.slot) & is_unread(f.high.slot);
    (!f.turned | full) & (!f.output | (!f.marked & unread))
}

// Whether an open file is sound.
fn open_sound(m: u8, w: u16, f: File) -> bool
    ensures { result ≡ open_sound m w f }
{
    let ranges = in_range(w, f);
    let buffers = has_buffers(m, f);
    let taken = taken_right(f);
    let full = full_right(f);
    let part = part_right(f);
    let place = place_right(f);
    let rest = rest_is_zero(f);
    ranges & (buffers & (taken & (full & (part & (place & rest)))))
}

// Whether a file is all zero.
fn is_blank(f: File) -> bool
    ensures { result ≡ is_blank f }
{
    let a = is_no_buffer(f.low);
    let b = is_no_buffer(f.high);
    let unit = (f.channel == 0) & (f.unit == 0);
    let choices = !f.output & (!f.double & (!f.sequence & !f.check));
    let sizes = (f.size == 0) & (f.rlen == 0);
    let rest = !f.turned & ((f.block == 0) & !f.marked);
    !f.opened & (unit & (choices & (sizes & (a & (b & rest)))))
}

// Whether the file is sound, in a pool of m buffers of w words: an open one by the clauses above, a closed one if it is all zero.
fn file_sound(m: u8, w: u16, f: File) -> bool
    ensures { result ≡ file_sound m w f }
{
    if f.opened {
        open_sound(m, w, f)
    } else {
        is_blank(f)
    }
}

// Whether two open files share a buffer.
fn share_buffer(f: File, g: File) -> bool
    ensures { result ≡ share_buffer f g }
{
    let a = holds(g, f.low.number as usize);
    let b = holds(g, f.high.number as usize);
    f.opened & (a | (f.double & b))
}

// Whether two files share neither a buffer nor a unit.
fn are_apart(f: File, g: File) -> bool
    ensures { result ≡ apart f g }
{
    !share_buffer(f, g) & !(f.opened & serves(g, f.channel, f.unit))
}

// Whether every file is sound by itself.
fn each_sound(m: u8, w: u16, files: [File; FILES]) -> bool
    ensures { result ≡ all_of (file_sound m w) files }
{
    for f in &files {
        if !file_sound(m, w, *f) {
            return false;
        }
    }
    true
}

// Whether a file is apart from each of the files k, k + 1 and so on.
fn apart_from(f: File, files: [File; FILES], k: usize) -> bool
    ensures { result ≡ all_of (apart f) (drop k files) }
{
    for i in k..FILES {
        if !are_apart(f, files[i]) {
            return false;
        }
    }
    true
}

// Whether every two files are apart.
fn all_apart(files: [File; FILES]) -> bool
    ensures { result ≡ all_pairs apart files }
{
    for i in 0..FILES {
        if !apart_from(files[i], files, i + 1) {
            return false;
        }
    }
    true
}

// Whether the files are sound, in a pool of m buffers of w words.
pub fn files_sound(m: u8, w: u16, files: [File; FILES]) -> bool
    ensures { result ≡ files_sound m w files }
{
    each_sound(m, w, files) & all_apart(files)
}
