// A line to its frame: the numbers that stand in it, the kinds of frames, and the words of a line to a lent room. A place is counted in bytes, two
// digits each.
ghost use Rattle.std.specs.Prelude.{◌≡◌, ◌<◌, length};
ghost use Rattle.area.specs.Lists.{all_of};
ghost use Rattle.session_frame.specs.Digits.{is_digit, value_of, bytes_of};
ghost use Rattle.session_frame.specs.Fields.{byte_at, size_at, word_at};
ghost use Rattle.session_frame.specs.Frames.{sized, worded, word_count, fresh_from, open_from, ask_with, naming_in, ask_from, shows_length, report_with, report_from, words_at, put_from, is_text, kind_of, frame_of, words_from};
ghost use Rattle.area.specs.Parts.{paste};

use crate::{AskFrame, Frame, FreshFrame, LONGEST, Masks, OpenFrame, PutFrame, ReportFrame};
use channel_outcomes::NO_LENGTH;
use routines::{Naming, no_naming};

// Whether a character is one of the sixteen digits.
fn is_digit(c: u8) -> bool
    ensures { result ≡ is_digit c }
{
    ((b'0' <= c) & (c <= b'9')) | ((b'A' <= c) & (c <= b'F'))
}

// What a digit stands for, 0 for what is no digit. It is no match: of these tests the compiler makes no branch, and the digits of words come at random, so
// that a processor would guess a branch wrong.
fn value(c: u8) -> u8
    ensures { (result ≡ value_of c) × (result < 16) }
{
    if (b'0' <= c) & (c <= b'9') {
        return c - b'0';
    }
    if (b'A' <= c) & (c <= b'F') {
        return c - b'A' + 10;
    }
    0
}

// Whether every character of a line is a digit. It looks at all of them without a branch, which a processor does many at a time.
fn all_digits(line: &[u8]) -> bool
    ensures { result ≡ all_of is_digit line.now }
{
    let mut all = true;
    for c in line {
        all &= is_digit(*c);
    }
    all
}

// Byte k of a line, 0 past its end.
fn byte_at(line: &[u8], k: usize) -> u8
    ensures { result ≡ byte_at (bytes_of line.now) k }
{
    if line.len() / 2 <= k {
        return 0;
    }
    value(line[2 * k]) * 16 + value(line[2 * k + 1])
}

// The number of two bytes that begins at byte k.
fn size_at(line: &[u8], k: usize) -> u16
    ensures { result ≡ size_at (bytes_of line.now) k }
{
    if line.len() / 2 <= k {
        return 0;
    }
    let high = byte_at(line, k);
    let low = byte_at(line, k + 1);
    u16::from(high) * 256 + u16::from(low)
}

// The word of five bytes that begins at byte k.
fn word_at(line: &[u8], k: usize) -> u64
    ensures { result ≡ word_at (bytes_of line.now) k }
{
    if line.len() / 2 <= k {
        return 0;
    }
    let a = u64::from(byte_at(line, k));
    let b = u64::from(byte_at(line, k + 1));
    let c = u64::from(byte_at(line, k + 2));
    let d = u64::from(byte_at(line, k + 3));
    let e = u64::from(byte_at(line, k + 4));
    (((a * 256 + b) * 256 + c) * 256 + d) * 256 + e
}

// The frame f if the line has exactly `size` bytes.
fn if_sized(n: usize, size: usize, f: Frame) -> Frame
    ensures { result ≡ sized n size f }
{
    if n == size {
        return f;
    }
    Frame::Malformed
}

// The frame f if the line has `head` bytes and whole words after them.
fn if_worded(n: usize, head: usize, f: Frame) -> Frame
    ensures { result ≡ worded n head f }
{
    if n < head {
        return Frame::Malformed;
    }
    if (n - head) % 5 == 0 {
        return f;
    }
    Frame::Malformed
}

// How many words come after `head` bytes.
fn words_after(n: usize, head: usize) -> usize
    ensures { result ≡ word_count n head }
{
    n.saturating_sub(head) / 5
}

// A fresh start.
fn fresh(line: &[u8], n: usize) -> Frame
    ensures { result ≡ fresh_from n (bytes_of line.now) }
{
    let masks = Masks {
        a: size_at(line, 4),
        b: size_at(line, 6),
        c: size_at(line, 8),
        d: size_at(line, 10),
        e: size_at(line, 12),
    };
    let f = FreshFrame {
        m: byte_at(line, 1),
        w: size_at(line, 2),
        masks,
    };
    if_sized(n, 14, Frame::Fresh(f))
}

// The open of a file.
fn opening(line: &[u8], n: usize) -> Frame
    ensures { result ≡ open_from n (bytes_of line.now) }
{
    let f = OpenFrame {
        file: byte_at(line, 1),
        channel: byte_at(line, 2),
        unit: byte_at(line, 3),
        flags: byte_at(line, 4),
        size: size_at(line, 5),
        rlen: size_at(line, 7),
    };
    if_sized(n, 9, Frame::Open(f))
}

// The bytes of an ask: one that names no routine, and one that names one.
const PLAIN_ASK: usize = 4;

const NAMING_ASK: usize = 6;

// The numbers of an ask, with what it says of a routine.
fn ask_with(line: &[u8], naming: Naming) -> Frame
    ensures { result ≡ ask_with naming (bytes_of line.now) }
{
    Frame::Ask(AskFrame {
        file: byte_at(line, 1),
        op: byte_at(line, 2),
        priority: byte_at(line, 3),
        naming,
    })
}

// The routine and its priority, which stand after the numbers of an ask.
fn naming_in(line: &[u8]) -> Naming
    ensures { result ≡ naming_in (bytes_of line.now) }
{
    Naming {
        given: true,
        routine: byte_at(line, 4),
        level: byte_at(line, 5),
    }
}

// A request; one of six bytes names a routine.
fn ask(line: &[u8], n: usize) -> Frame
    ensures { result ≡ ask_from n (bytes_of line.now) }
{
    if n == NAMING_ASK {
        return ask_with(line, naming_in(line));
    }
    if_sized(n, PLAIN_ASK, ask_with(line, no_naming()))
}

// The bytes of a report ahead of its words: without a length, and with one.
const HEAD: usize = 4;

const LENGTH_HEAD: usize = 6;

// The outcome of a report that may carry a length.
const REDUNDANCY: u8 = 1;

// Whether a report of n bytes carries a length: two are left over from fives.
fn shows_length(n: usize) -> bool
    ensures { result ≡ shows_length n }
{
    n.saturating_sub(HEAD) % 5 == 2
}

// A report with this length, whose words come after `head` bytes.
fn report_with(line: &[u8], n: usize, head: usize, length: u32) -> Frame
    ensures { result ≡ report_with head length n (bytes_of line.now) }
{
    let f = ReportFrame {
        channel: byte_at(line, 1),
        unit: byte_at(line, 2),
        outcome: byte_at(line, 3),
        length,
        words: words_after(n, head),
    };
    if_worded(n, head, Frame::Report(f))
}

// A report, with its words; with a length where its bytes show one, which a redundancy alone may carry.
fn report(line: &[u8], n: usize) -> Frame
    ensures { result ≡ report_from n (bytes_of line.now) }
{
    if !shows_length(n) {
        return report_with(line, n, HEAD, NO_LENGTH);
    }
    let outcome = byte_at(line, 3);
    if outcome != REDUNDANCY {
        return Frame::Malformed;
    }
    report_with(line, n, LENGTH_HEAD, u32::from(size_at(line, 4)))
}

// How many bytes of a report's line stand ahead of its words.
pub fn words_at(q: ReportFrame) -> usize
    ensures { result ≡ words_at q }
{
    if q.length == NO_LENGTH {
        return HEAD;
    }
    LENGTH_HEAD
}

// A put, with its words.
fn put(line: &[u8], n: usize) -> Frame
    ensures { result ≡ put_from n (bytes_of line.now) }
{
    let f = PutFrame {
        file: byte_at(line, 1),
        words: words_after(n, 2),
    };
    if_worded(n, 2, Frame::Put(f))
}

// Whether a line is pairs of digits, at most the longest line.
fn is_text(line: &[u8]) -> bool
    ensures { result ≡ is_text line.now }
{
    let n = line.len();
    if LONGEST < n {
        return false;
    }
    (n % 2 == 0) & all_digits(line)
}

// The frame of a line of digits, of which n bytes count, by its first byte.
fn kind_of(line: &[u8], n: usize) -> Frame
    ensures { result ≡ kind_of n (bytes_of line.now) }
{
    let file = byte_at(line, 1);
    match byte_at(line, 0) {
        0 => fresh(line, n),
        1 => opening(line, n),
        2 => if_sized(n, 2, Frame::Close(file)),
        3 => ask(line, n),
        4 => report(line, n),
        5 => if_sized(n, 2, Frame::Get(file)),
        6 => put(line, n),
        7 => if_sized(n, 2, Frame::Seal(file)),
        8 => if_sized(n, 2, Frame::Skip(file)),
        9 => if_sized(n, 1, Frame::Freeze),
        10 => if_sized(n, 1, Frame::Thaw),
        11 => if_sized(n, 1, Frame::Return),
        12 => if_sized(n, 1, Frame::Running),
        _ => Frame::Malformed,
    }
}

// The frame that a line is, its line feed left out: Malformed for every line that is none.
pub fn frame_of(line: &[u8]) -> Frame
    ensures { result ≡ frame_of line.now }
{
    if is_text(line) {
        return kind_of(line, line.len() / 2);
    }
    Frame::Malformed
}

// The words of a line from byte `start` on go to the front of the room, as many as it takes; the rest of the room stays.
// The answer is how many they are.
pub fn words_into(line: &[u8], start: usize, room: &mut [u64]) -> usize
    ensures value { result ≡ length (words_from line.now start (length room.old)) }
    ensures room_after { room.new ≡ paste 0 (words_from line.now start (length room.old)) room.old }
{
    let n = line.len() / 2;
    let mut at = start;
    for i in 0..room.len() {
        if n.saturating_sub(at) < 5 {
            return i;
        }
        room[i] = word_at(line, at);
        at += 5;
    }
    room.len()
}
