// The records of an image that wait to be written to standard output.

use crate::failure::{Failure, Refusal};
use std::io::Stdout;
use streams::{large_buffer, write_all};

// How many bytes may wait: the largest record has room after them.
const WAITING: usize = 32768;

#[derive(Drop)]
pub struct Image {
    // What waits, up to `used`.
    bytes: [u8; 65536],
    used: usize,
    to: Stdout,
    // Whether parity is even.
    bcd: bool,
    // The lines before.
    lines: u64,
}

impl Image {
    pub fn new(to: Stdout, bcd: bool) -> Image {
        Image {
            bytes: large_buffer(),
            used: 0,
            to,
            bcd,
            lines: 0,
        }
    }

    // Writes what waits, and keeps nothing of it.
    pub fn flush(&mut self) -> Result<(), Failure> {
        let n = self.used;
        self.used = 0;
        if write_all(self.to, self.bytes.get(..n).unwrap_or(&self.bytes)) {
            Ok(())
        } else {
            Err(Failure::Output)
        }
    }

    // The record of a line was added, of so many bytes. If much waits, it is written.
    fn end_record(&mut self, bytes: usize) -> Result<(), Failure> {
        self.used = self.used.saturating_add(bytes);
        self.lines = self.lines.wrapping_add(1);
        if WAITING < self.used {
            self.flush()?;
        }
        Ok(())
    }

    pub fn write_mark(&mut self) -> Result<(), Failure> {
        tape::write_mark(&mut self.bytes, self.used);
        self.end_record(4)
    }

    pub fn write_block(&mut self, words: &[u64]) -> Result<(), Failure> {
        match tape::write_block(&mut self.bytes, self.used, self.bcd, words) {
            0 => self.end_record(6 * words.len() + 8),
            2 => Err(self.refused(Refusal::Tall)),
            _ => Err(self.refused(Refusal::Size)),
        }
    }

    // The line that would be the next is refused.
    pub fn refused(&self, refusal: Refusal) -> Failure {
        Failure::Line {
            number: self.lines.wrapping_add(1),
            refusal,
        }
    }
}
