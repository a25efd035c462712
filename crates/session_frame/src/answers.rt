// An answer to its line: numbers written as digits into a lent area from a place on, counted in characters, what comes ahead of the words, and the whole
// line. Every other character of the area stays.
ghost use Rattle.std.specs.Prelude.{◌≡◌, cond, ◌+◌, ◌*◌, ◌%◌, ◌≤◌, ◌<◌, leb, length};
ghost use Rattle.area.specs.Parts.{paste, pasted_in};
ghost use Rattle.session_frame.specs.Digits.{digit_of, byte_digits, concat_map};
ghost use Rattle.session_frame.specs.Fields.{word_digits, program_byte};
ghost use Rattle.session_frame.specs.Writes.{place_after};
ghost use Rattle.session_frame.specs.Leads.{brief_lead, full_lead, returned_lead, runs_lead, lead_of, shown_of};
ghost use Rattle.session_frame.specs.Answers.{answer_text};

use crate::{Answer, Lead};
use routines::{Program, is_main};
use word::Checked;

// Whether n words of ten characters fit.
fn words_fit(len: usize, at: usize, n: usize) -> bool
    ensures { result ≡ leb (at + 10 * n) len }
{
    if len < at {
        return false;
    }
    n <= (len - at) / 10
}

// The digit of a number below 16.
fn digit(n: u8) -> u8
    requires { n < 16 }
    ensures { result ≡ digit_of n }
{
    if n < 10 {
        return n + b'0';
    }
    n - 10 + b'A'
}

// The low byte of a number.
fn low(x: u64) -> u8
    ensures { result ≡ x % 256 }
{
    (x % 256) as u8
}

// A byte's two digits, where they fit.
fn write_byte(out: &mut [u8], at: usize, b: u8)
    requires { at + 2 ≤ length out.old }
    ensures { out.new ≡ paste at (byte_digits b) out.old }
{
    out[at] = digit(b / 16);
    out[at + 1] = digit(b % 16);
}

// A word's ten digits, where they fit.
fn write_word(out: &mut [u8], at: usize, w: u64)
    requires { at + 10 ≤ length out.old }
    ensures { out.new ≡ paste at (word_digits w) out.old }
{
    write_byte(out, at, low(w >> 32));
    write_byte(out, at + 2, low(w >> 24));
    write_byte(out, at + 4, low(w >> 16));
    write_byte(out, at + 6, low(w >> 8));
    write_byte(out, at + 8, low(w));
}

// All words, one after the other, if all fit.
fn put_words(out: &mut [u8], at: usize, words: &[u64]) -> usize
    ensures value { result ≡ place_after at (concat_map word_digits words.now) out.old }
    ensures out_after { out.new ≡ pasted_in at (concat_map word_digits words.now) out.old }
{
    if !words_fit(out.len(), at, words.len()) {
        return at;
    }
    let mut to = at;
    for word in words {
        write_word(out, to, *word);
        to += 10;
    }
    to
}

// A lead of at most four bytes.
fn brief(count: usize, first: u8, second: u8, fourth: u8, worded: bool) -> Lead
    ensures { result ≡ brief_lead count first second fourth worded }
{
    Lead {
        count,
        bytes: [first, second, 0, fourth, 0, 0, 0, 0, 0, 0, 0, 0, 0, 0, 0, 0],
        worded,
    }
}

// A lead with what a check found: 00, a number, the error, the sum and the number worked out, those read, and one byte more.
fn full(count: usize, second: u8, found: Checked, last: u8) -> Lead
    ensures { result ≡ full_lead count second found last }
{
    let sum = u64::from(found.sum);
    let number = u64::from(found.number);
    let sumread = u64::from(found.sumread);
    let numberread = u64::from(found.numberread);
    Lead {
        count,
        bytes: [
            0,
            second,
            found.error,
            low(sum >> 24),
            low(sum >> 16),
            low(sum >> 8),
            low(sum),
            low(number >> 8),
            low(number),
            low(sumread >> 24),
            low(sumread >> 16),
            low(sumread >> 8),
            low(sumread),
            low(numberread >> 8),
            low(numberread),
            last,
        ],
        worded: false,
    }
}

// What stands for every number of the main program.
const MAIN: u8 = 255;

// A number of a program as an answer has it.
fn program_byte(p: Program, n: u8) -> u8
    ensures { result ≡ program_byte p n }
{
    if is_main(p) {
        return MAIN;
    }
    n
}

// The lead of a return: 00, whether a routine was entered, and what runs.
fn returned(entered: bool, p: Program) -> Lead
    ensures { result ≡ returned_lead entered p }
{
    let channel = program_byte(p, p.channel);
    let unit = program_byte(p, p.unit);
    let routine = program_byte(p, p.routine);
    let entered = u8::from(entered);
    Lead {
        count: 5,
        bytes: [
            0, entered, channel, unit, routine, 0, 0, 0, 0, 0, 0, 0, 0, 0, 0, 0,
        ],
        worded: false,
    }
}

// The lead of what runs: 00 and its numbers.
fn runs(p: Program) -> Lead
    ensures { result ≡ runs_lead p }
{
    let channel = program_byte(p, p.channel);
    let unit = program_byte(p, p.unit);
    let routine = program_byte(p, p.routine);
    Lead {
        count: 4,
        bytes: [
            0, channel, unit, routine, 0, 0, 0, 0, 0, 0, 0, 0, 0, 0, 0, 0,
        ],
        worded: false,
    }
}

// The bytes of an answer ahead of its words.
fn lead_of(a: Answer) -> Lead
    ensures { result ≡ lead_of a }
{
    match a {
        Answer::Refused(n) => brief(1, n, 0, 0, false),
        Answer::Done => brief(1, 0, 0, 0, false),
        Answer::Asked { working } => brief(2, 0, working, 0, false),
        Answer::Reported { result, working } => brief(4, 0, result, working, true),
        Answer::Delivered {
            result,
            found,
            working,
        } => full(16, result, found, working),
        Answer::Got(number) => brief(2, 0, number, 0, true),
        Answer::GotError { number, found } => full(15, number, found, 0),
        Answer::Returned { entered, program } => returned(entered, program),
        Answer::Runs(program) => runs(program),
    }
}

// Writes bytes at the front of an area where they fit. The answer is the place after them.
fn write_lead(bytes: &[u8], out: &mut [u8]) -> usize
    requires { 2 * length bytes.now ≤ length out.old }
    ensures { (result ≡ 2 * length bytes.now) × (out.new ≡ paste 0 (concat_map byte_digits bytes.now) out.old) }
{
    let mut to = 0;
    for byte in bytes {
        write_byte(out, to, *byte);
        to += 2;
    }
    to
}

// The words that an answer shows: all or none.
fn shown(words: &[u64], worded: bool) -> &[u64]
    ensures { result.now ≡ shown_of worded words.now }
{
    if worded {
        return words;
    }
    &words[..0]
}

// Whether a line of so many bytes and n words, with its line feed, fits into `len` characters.
fn line_fits(len: usize, count: usize, n: usize) -> bool
    requires { count ≤ 16 }
    ensures { result ≡ leb (2 * count + 10 * n + 1) len }
{
    let least = 2 * count + 1;
    if len < least {
        return false;
    }
    n <= (len - least) / 10
}

// Writes an answer's line at the front of the area, line feed last, and gives its length. Every other character stays.
// A line that does not fit is not written, and its length is given as 0. Words with an answer that shows none are left out.
pub fn write_answer(a: Answer, words: &[u64], out: &mut [u8]) -> usize
    ensures value { result ≡ place_after 0 (answer_text a words.now) out.old }
    ensures out_after { out.new ≡ pasted_in 0 (answer_text a words.now) out.old }
{
    let lead = lead_of(a);
    let part = shown(words, lead.worded);
    if !line_fits(out.len(), lead.count, part.len()) {
        return 0;
    }
    let mid = write_lead(&lead.bytes[..lead.count], out);
    let end = put_words(out, mid, part);
    out[end] = b'\n';
    end + 1
}
