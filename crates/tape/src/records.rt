// The next record of an image: how long it is, and whether it has a fault.
ghost use Rattle.std.specs.Prelude.{◌≡◌, cond, eqb, None, Some, ◌+◌, ◌-◌, ◌<◌, ◌≤◌, ◌^◌, length, drop};
ghost use Rattle.tape.specs.Lengths.{length_at, record_size};
ghost use Rattle.tape.specs.Faults.{differ_at, fault_of};
ghost use Rattle.tape.specs.Records.{next_in};

use crate::Next;

// The most data bytes of a block: 1,024 words.
const MOST: usize = 6144;

// The bytes of the largest record: its data and two lengths.
const LARGEST: usize = 6152;

// How many of `len` bytes stand from a place on: none past the end.
fn left_of(len: usize, at: usize) -> usize
    ensures { result ≡ len - at }
{
    len.saturating_sub(at)
}

// The number that four bytes are, the lowest first.
fn length_at(image: &[u8], at: usize) -> usize
    requires { at + 4 ≤ length image.now }
    ensures { (result ≡ length_at (drop at image.now) 0) × (result < 2 ^ 32) }
{
    wide(image[at])
        + 256 * (wide(image[at + 1]) + 256 * (wide(image[at + 2]) + 256 * wide(image[at + 3])))
}

// A byte as a number.
fn wide(x: u8) -> usize
    ensures { (result ≡ x) × (result < 256) }
{
    x as usize
}

// The bytes of a record with n bytes of data: two lengths, and the data padded to an even count.
fn record_size(n: usize) -> usize
    requires { n < 2 ^ 32 }
    ensures { result ≡ record_size n }
{
    n + n % 2 + 8
}

// Whether the second length of a record is there and is not n.
fn differ_at(image: &[u8], at: usize, n: usize) -> bool
    requires { (at ≤ length image.now) × (n < 2 ^ 32) }
    ensures { result ≡ differ_at (drop at image.now) n }
{
    let size = record_size(n);
    if image.len() - at < size {
        return false;
    }
    length_at(image, at + (size - 4)) != n
}

// The highest fault of a record of which `left` bytes stand, if it has one: its first length is n, and whether its second one differs.
fn fault_of(left: usize, n: usize, differ: bool) -> Option<u8>
    requires { n < 2 ^ 32 }
    ensures { result ≡ cond (eqb (fault_of left n differ) 0) None (Some (fault_of left n differ)) }
{
    if left < 4 {
        return Some(21);
    }
    if MOST < n {
        return Some(23);
    }
    if n % 6 != 0 {
        return Some(22);
    }
    if left < record_size(n) {
        return Some(21);
    }
    if differ {
        return Some(20);
    }
    None
}

// What stands at a place of the bytes that have come of an image. `ended` says that no more come: until then fewer bytes than the
// largest record has are too few to say, so that the answer never depends on what comes later.
pub fn next_record(image: &[u8], at: usize, ended: bool) -> Next
    ensures { result ≡ next_in ended (drop at image.now) at }
{
    let left = left_of(image.len(), at);
    if !ended & (left < LARGEST) {
        return Next::More;
    }
    if left == 0 {
        return Next::End;
    }
    if left < 4 {
        return Next::Fault {
            number: 21,
            place: at,
        };
    }
    let n = length_at(image, at);
    if n == 0 {
        return Next::Mark { next: at + 4 };
    }
    let differ = differ_at(image, at, n);
    if let Some(number) = fault_of(left, n, differ) {
        return Next::Fault { number, place: at };
    }
    let size = record_size(n);
    Next::Block {
        place: at + 4,
        words: n / 6,
        next: at + size,
    }
}
