// Makes a tape image of the lines of words on standard input, of any length, in constant memory: the image of a reel that `tape_show words` shows
// as those lines. With the argument `bcd` parity is even. At a line that is none it stops, and says so in one line on standard error.
#![tactic(auto)]

mod failure;
mod image;
mod line;

use failure::{Failure, Refusal};
use image::Image;
use line::{Line, WORDS};
use std::io::{Read, Stderr};
use std::rt::Env;
use streams::large_buffer;

// The record of a line that has ended, and whose words stand at the front of the room.
fn make_record(image: &mut Image, line: Line, words: &[u64]) -> Result<(), Failure> {
    if line.is_mark() {
        return image.write_mark();
    }
    match line.count() {
        Ok(n) => image.write_block(words.get(..n).unwrap_or(words)),
        Err(refusal) => Err(image.refused(refusal)),
    }
}

// Makes the image of the lines in some bytes. Of the last line there may be more to come.
fn make_lines(
    image: &mut Image,
    line: &mut Option<Line>,
    words: &mut [u64; WORDS],
    bytes: &[u8],
) -> Result<(), Failure> {
    for byte in bytes {
        if *byte == b'\n' {
            make_record(image, line.take().unwrap_or_default(), &words[..])?;
        } else {
            line.get_or_insert_default().push(*byte, words);
        }
    }
    Ok(())
}

// Makes the image of the text that is read. There are fewer reads than would use up the range.
fn make(reader: &mut impl Read, image: &mut Image) -> Result<(), Failure> {
    let mut input = large_buffer();
    let mut words = [0u64; WORDS];
    let mut line: Option<Line> = None;
    for _ in 0..u64::MAX {
        let Ok(n) = reader.read(&mut input) else {
            return Err(Failure::Input);
        };
        if n == 0 {
            break;
        }
        make_lines(image, &mut line, &mut words, &input[..n])?;
    }
    if let Some(last) = line {
        make_record(image, last, &words)?;
    }
    image.flush()
}

// Says what failed, in one write, so that no other program's words stand inside the line. If that cannot be said, nothing more can be.
fn tell(to: Stderr, failure: Failure) {
    let _ = to.println(failure);
}

// With the argument `bcd`, or any that begins so, parity is even.
fn main(rt: HostRuntime) {
    let mut name = [0u8; 8];
    let _ = rt.arg(1, &mut name);
    let mut image = Image::new(rt.stdout(), name[0] == b'b');
    let Err(failure) = make(&mut rt.stdin(), &mut image) else {
        return;
    };
    // What was made of the lines before one that is refused stands.
    if matches!(failure, Failure::Line { .. }) {
        if let Err(other) = image.flush() {
            tell(rt.stderr(), other);
        }
    }
    tell(rt.stderr(), failure);
}
