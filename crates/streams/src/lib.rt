// What the programs share of reading and writing bytes, over std's streams. A read or a write that fails is told, not passed on:
// each program says what it does then.
#![tactic(auto)]

ghost use Rattle.std.specs.Prelude.{◌≡◌, ◌≤◌, length, take, IfSome};

use std::env::FillError;
use std::fs;
use std::io::{Error, Print, Read, Stderr, Stdin, Stdout, Write};
use std::rt::{Env, Files};

// The system's numbers for a wrong argument and for a name that is too long.
const INVALID: i32 = 22;

const TOO_LONG: i32 = 36;

// The three standard streams of a program.
#[derive(Clone, Copy)]
pub struct Streams {
    pub input: Stdin,
    pub out: Stdout,
    pub err: Stderr,
}

// 65,536 zeros: the room for a text, or for a part of it.
pub fn large_buffer() -> [u8; 65536]
    ensures { 65536 ≡ length result }
{
    [0; 65536]
}

// Writes all the bytes, or says that it cannot.
pub fn write_all<P: Print>(to: P, bytes: &[u8]) -> bool
where
    P: Drop,
{
    to.write_all(bytes).is_ok()
}

// Writes a number in decimal, or says that it cannot.
pub fn print_decimal<P: Print>(to: P, n: u64) -> bool
where
    P: Drop,
{
    to.print(n).is_ok()
}

// Puts a number in decimal at the front of the text, and says how many digits it has.
pub fn decimal(n: u64, text: &mut [u8; 20]) -> usize
    ensures { result ≤ 20 }
{
    let mut rest = &mut text[..];
    let _ = write!(rest, "{n}");
    let left = rest.len();
    20usize.saturating_sub(left)
}

// A line of numbers on standard output, with one blank between them.
#[derive(Clone, Copy)]
pub struct Line {
    to: Stdout,
    begun: bool,
}

impl Line {
    // A line of which nothing is written yet.
    pub fn new(to: Stdout) -> Line {
        Line { to, begun: false }
    }

    // Writes the next number of the line.
    pub fn number<N: Into<u64>>(&mut self, n: N) {
        let n: u64 = n.into();
        let _ = if self.begun {
            self.to.print(format_args!(" {n}"))
        } else {
            self.to.print(n)
        };
        self.begun = true;
    }

    // Writes several numbers.
    pub fn numbers(&mut self, all: &[u64]) {
        for n in all {
            self.number(*n);
        }
    }

    // Ends the line.
    pub fn end(self) {
        write_all(self.to, b"\n");
    }
}

// The first n bytes, or all if there are fewer.
pub fn front(bytes: &[u8], n: usize) -> &[u8]
    ensures { result.now ≡ take n bytes.now }
{
    bytes.get(..n).unwrap_or(bytes)
}

// Reads until the room is full, the input ends or a read fails, and says how many bytes stand at the front of the room.
pub fn read_full<R: Read>(input: &mut R, room: &mut [u8]) -> usize
    ensures { result ≤ length room.new }
{
    let mut done = 0;
    while done < room.len() {
        match input.read(&mut room[done..]) {
            Ok(0) | Err(_) => return done,
            Ok(n) => done += n,
        }
    }
    done
}

// The words of an error's text, its front, without the number that stands after them in parentheses.
fn words_of(text: &[u8]) -> &[u8]
    ensures { result.now ≡ take (length result.now) text.now }
{
    let number = b" (os error ".as_slice();
    match text.windows(number.len()).position(|w| w == number) {
        Some(at) => &text[..at],
        None => text,
    }
}

// Says a line on standard error: what failed, a colon, and the system's words for the error, without its number.
pub fn fail(to: Stderr, what: &[u8], e: Error) {
    let mut text = [0u8; 256];
    let mut rest = &mut text[..];
    let _ = write!(rest, "{e}");
    let left = rest.len();
    let length = text.len().saturating_sub(left);
    write_all(to, what);
    write_all(to, b": ");
    write_all(to, words_of(&text[..length]));
    write_all(to, b"\n");
}

// Puts argument i at the front of the room and says how long it is, or says on standard error that there is none, or that it is too long.
pub fn argument<V: Env>(rt: &V, to: Stderr, i: usize, room: &mut [u8], what: &[u8]) -> Option<usize>
    ensures { IfSome result (λ n. n ≤ length room.new) }
{
    let number = match rt.arg(i, room) {
        Ok(n) => return Some(n),
        Err(FillError::NotPresent) => INVALID,
        Err(FillError::TooLong) => TOO_LONG,
    };
    fail(to, what, Error::from_raw_os_error(number));
    None
}

// Opens the file of that name for reading, or says on standard error that it cannot. A name is text.
pub fn opened<F: Files>(rt: &F, to: Stderr, name: &[u8]) -> Option<F::File> {
    str::from_utf8(name)
        .map_err(|_| Error::from_raw_os_error(INVALID))
        .and_then(|path| fs::open(rt, path))
        .map_err(|e| fail(to, name, e))
        .ok()
}
