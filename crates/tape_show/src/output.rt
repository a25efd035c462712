// Lines that wait to be written to standard output.

ghost use Rattle.std.specs.Prelude.{◌<◌, ◌≤◌};

use crate::failure::Failure;
use std::io::{self, Stdout, Write};
use streams::{front, large_buffer, write_all};

// How much may wait: a line of 1,024 words has room after it.
const WAITING: usize = 32768;

#[derive(Drop)]
pub struct Output {
    to: Stdout,
    // How much waits, at the front of the text.
    used: usize,
    text: [u8; 65536],
}

impl Output {
    pub fn new(to: Stdout) -> Output {
        Output {
            to,
            used: 0,
            text: large_buffer(),
        }
    }

    // Adds text after what waits.
    pub fn add(&mut self, text: &[u8]) -> Result<(), Failure> {
        let at = self.used;
        let rest = self.text.get_mut(at..);
        let Some(place) = rest.and_then(|rest| rest.get_mut(..text.len())) else {
            return Err(Failure::Output);
        };
        self.used = at.wrapping_add(text.len());
        // text is short, and a copy of slices would first look whether they overlap
        for (to, from) in place.iter_mut().zip(text) {
            *to = *from;
        }
        Ok(())
    }

    // Writes what waits, and keeps nothing of it.
    pub fn send(&mut self) -> Result<(), Failure> {
        let n = self.used;
        self.used = 0;
        if write_all(self.to, front(&self.text, n)) {
            Ok(())
        } else {
            Err(Failure::Output)
        }
    }

    // Writes what waits if it is much.
    pub fn end_record(&mut self) -> Result<(), Failure> {
        if WAITING < self.used {
            self.send()?;
        }
        Ok(())
    }
}

// What is written to it waits.
impl Write for Output {
    fn write(&mut self, text: &[u8]) -> io::Result<usize> {
        match self.add(text) {
            Ok(()) => Ok(text.len()),
            Err(_) => Err(io::ErrorKind::WriteZero.into()),
        }
    }

    fn write_all(&mut self, text: &[u8]) -> io::Result<()> {
        self.add(text).map_err(|_| io::ErrorKind::WriteZero.into())
    }

    fn flush(&mut self) -> io::Result<()> {
        Ok(())
    }
}

// A word in N digits of that base, 16 at most, the highest first.
pub fn digits<const N: usize, const BASE: u64>(word: u64) -> [u8; N]
    requires { (0 < BASE) × (BASE ≤ 16) }
{
    let mut text = [0u8; N];
    let mut rest = word;
    for digit in text.iter_mut().rev() {
        *digit = b"0123456789ABCDEF"[(rest % BASE) as usize];
        rest /= BASE;
    }
    text
}
