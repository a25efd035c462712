// Lines that wait to be written to standard output.

use crate::failure::Failure;
use std::io::{Cursor, Stdout, Write};
use streams::{large_buffer, write_all};

// How much may wait: a line of 1,024 words has room after it.
const WAITING: u64 = 32768;

#[derive(Drop)]
pub struct Output {
    // What waits, up to the cursor's position.
    pub text: Cursor<[u8; 65536]>,
    to: Stdout,
}

impl Output {
    pub fn new(to: Stdout) -> Output {
        Output {
            text: Cursor::new(large_buffer()),
            to,
        }
    }

    // Adds words one after the other, and the end of their line.
    pub fn add_words(&mut self, words: &[u64]) -> Result<(), Failure> {
        for word in words {
            self.text.write_all(&digits(*word))?;
        }
        self.text.write_all(b"\n")?;
        Ok(())
    }

    // Writes what waits, and keeps nothing of it.
    pub fn flush(&mut self) -> Result<(), Failure> {
        let n = self.text.position() as usize;
        self.text.set_position(0);
        let room = &self.text.get_ref()[..];
        if write_all(self.to, room.get(..n).unwrap_or(room)) {
            Ok(())
        } else {
            Err(Failure::Output)
        }
    }

    // Writes what waits if it is much.
    pub fn end_line(&mut self) -> Result<(), Failure> {
        if WAITING < self.text.position() {
            self.flush()?;
        }
        Ok(())
    }
}

// A word in ten hexadecimal digits, the highest first.
fn digits(word: u64) -> [u8; 10] {
    let mut text = [0u8; 10];
    let mut rest = word;
    for digit in text.iter_mut().rev() {
        *digit = b"0123456789ABCDEF"[(rest % 16) as usize];
        rest /= 16;
    }
    text
}
