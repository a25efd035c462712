// A buffer and a file as bytes of an image.
ghost use Rattle.std.specs.Prelude.{◌≡◌, ◌+◌, ◌*◌, ◌≤◌, length, drop};
ghost use Rattle.area.specs.Parts.{paste};
ghost use Rattle.file.specs.Slots.{slot_kind};
ghost use Rattle.state_image.specs.Files.{slot_words, buffer_size, buffer_row, buffer_bytes, arrival_from, full_from, slot_of, buffer_codec, file_row, file_from, file_size, file_codec, files_codec};

use codec::{four_at, put_bytes, two_at};
use file::{Arrival, Buffer, File, Slot, closed_file, full_arrival, full_place};
use pool::FILES;
use word::Checked;

// The bytes of a buffer, of a file's own numbers, and of a file.
const BUFFER: usize = 20;

const OWN: usize = 15;

pub const FILE: usize = OWN + (BUFFER + BUFFER);

// The bytes of all files.
pub const FILE_BYTES: usize = FILES * FILE;

// What a buffer holds, as a byte.
pub const EMPTY: u8 = 0;

pub const TAKEN: u8 = 1;

pub const PART: u8 = 2;

pub const FULL: u8 = 3;

fn slot_kind(x: Slot) -> u8
    ensures { result ≡ slot_kind x }
{
    match x {
        Slot::Empty => EMPTY,
        Slot::Taken => TAKEN,
        Slot::Part(_) => PART,
        Slot::Full { .. } => FULL,
    }
}

// The words of a part-filled buffer or of a full block.
fn slot_words(x: Slot) -> u16
    ensures { result ≡ slot_words x }
{
    match x {
        Slot::Empty | Slot::Taken => 0,
        Slot::Part(words) => words,
        Slot::Full { words, .. } => words,
    }
}

// The bytes of a buffer, by what it holds.
fn buffer_row(number: u8, kind: u8, words: u16, at: u16, failed: u8, found: Checked) -> [u8; BUFFER]
    ensures { result ≡ buffer_row number kind words at failed found }
{
    [
        number,
        kind,
        failed,
        found.error,
        (words % 256) as u8,
        (words / 256) as u8,
        (at % 256) as u8,
        (at / 256) as u8,
        (found.number % 256) as u8,
        (found.number / 256) as u8,
        (found.numberread % 256) as u8,
        (found.numberread / 256) as u8,
        (found.sum % 256) as u8,
        (found.sum / 256 % 256) as u8,
        (found.sum / 256 / 256 % 256) as u8,
        (found.sum / 256 / 256 / 256) as u8,
        (found.sumread % 256) as u8,
        (found.sumread / 256 % 256) as u8,
        (found.sumread / 256 / 256 % 256) as u8,
        (found.sumread / 256 / 256 / 256) as u8,
    ]
}

// How the full block whose buffer stands at byte `at` arrived.
pub fn arrival_at(b: &[u8], at: usize) -> Arrival
    requires { at + buffer_size ≤ length b.now }
    ensures { result ≡ arrival_from (drop at b.now) }
{
    let sum = four_at(b, at + 12);
    let number = two_at(b, at + 8);
    let sumread = four_at(b, at + 16);
    let numberread = two_at(b, at + 10);
    let check = Checked {
        error: b[at + 3],
        sum,
        number,
        sumread,
        numberread,
    };
    Arrival {
        failed: b[at + 2],
        check,
    }
}

// What a buffer at byte `at` holds if it is full.
fn full_at(b: &[u8], at: usize) -> Slot
    requires { at + buffer_size ≤ length b.now }
    ensures { result ≡ full_from (drop at b.now) }
{
    let words = two_at(b, at + 4);
    let place = two_at(b, at + 6);
    let arrival = arrival_at(b, at);
    Slot::Full {
        words,
        at: place,
        arrival,
    }
}

fn slot_of(kind: u8, words: u16, full: Slot) -> Slot
    ensures { result ≡ slot_of kind words full }
{
    if kind == EMPTY {
        return Slot::Empty;
    }
    if kind == TAKEN {
        return Slot::Taken;
    }
    if kind == PART {
        return Slot::Part(words);
    }
    full
}

// Puts the bytes of a buffer into the area from byte `at` on.
fn put_buffer(out: &mut [u8], at: usize, b: Buffer)
    requires { at + buffer_size ≤ length out.old }
    ensures { out.new ≡ paste at (buffer_bytes b) out.old }
{
    let x = b.slot;
    let kind = slot_kind(x);
    let words = slot_words(x);
    let place = full_place(x);
    let a = full_arrival(x);
    let found = a.check;
    let bytes = buffer_row(b.number, kind, words, place, a.failed, found);
    put_bytes(out, at, &bytes);
}

// The buffer that stands at byte `at`.
fn buffer_at(b: &[u8], at: usize) -> Buffer
    requires { at + buffer_size ≤ length b.now }
    ensures { result ≡ buffer_codec.read (drop at b.now) }
{
    let words = two_at(b, at + 4);
    let full = full_at(b, at);
    let slot = slot_of(b[at + 1], words, full);
    Buffer {
        number: b[at],
        slot,
    }
}

// The bytes of a file's own numbers. Its block number is passed beside it, so that its range is known.
fn file_row(f: File, block: u16) -> [u8; OWN]
    ensures { result ≡ file_row f block }
{
    [
        f.opened as u8,
        f.channel,
        f.unit,
        f.output as u8,
        f.double as u8,
        f.sequence as u8,
        f.check as u8,
        f.turned as u8,
        f.marked as u8,
        (f.size % 256) as u8,
        (f.size / 256) as u8,
        (f.rlen % 256) as u8,
        (f.rlen / 256) as u8,
        (block % 256) as u8,
        (block / 256) as u8,
    ]
}

// Puts the bytes of a file into the area from byte `at` on.
pub fn put_file(out: &mut [u8], at: usize, f: File)
    requires { at + file_size ≤ length out.old }
    ensures { out.new ≡ paste at (file_codec.write f) out.old }
{
    let own = file_row(f, f.block);
    put_bytes(out, at, &own);
    put_buffer(out, at + OWN, f.low);
    put_buffer(out, at + OWN + BUFFER, f.high);
}

// The file that stands at byte `at`.
pub fn file_at(b: &[u8], at: usize) -> File
    requires { at + file_size ≤ length b.now }
    ensures { result ≡ file_codec.read (drop at b.now) }
{
    let low = buffer_at(b, at + OWN);
    let high = buffer_at(b, at + OWN + BUFFER);
    let size = two_at(b, at + 9);
    let rlen = two_at(b, at + 11);
    let block = two_at(b, at + 13);
    File {
        opened: b[at] == 1,
        channel: b[at + 1],
        unit: b[at + 2],
        output: b[at + 3] == 1,
        double: b[at + 4] == 1,
        sequence: b[at + 5] == 1,
        check: b[at + 6] == 1,
        size,
        rlen,
        low,
        high,
        turned: b[at + 7] == 1,
        block,
        marked: b[at + 8] == 1,
    }
}

// Puts the bytes of the files into the area from byte `at` on.
pub fn put_files(out: &mut [u8], at: usize, files: [File; FILES])
    requires { at + files_codec.size ≤ length out.old }
    ensures { out.new ≡ paste at (files_codec.write files) out.old }
{
    let mut to = at;
    for file in files.iter() {
        put_file(out, to, *file);
        to += FILE;
    }
}

// The files from byte `start` on.
pub fn files_at(b: &[u8], start: usize) -> [File; FILES]
    requires { start + files_codec.size ≤ length b.now }
    ensures { result ≡ files_codec.read (drop start b.now) }
{
    let closed = closed_file();
    let mut files = [closed; FILES];
    let mut at = start;
    for file in files.iter_mut() {
        let f = file_at(b, at);
        *file = f;
        at += FILE;
    }
    files
}
