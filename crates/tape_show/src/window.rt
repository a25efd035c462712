// The part of the image on standard input that has come and is not done with.

use crate::failure::Failure;
use std::io::{Read, Stdin};
use streams::{front, large_buffer};
use tape::Next;

#[derive(Drop)]
pub struct Window {
    // The bytes that have come, up to `to`; the room begins at byte `base` of the image.
    room: [u8; 65536],
    to: usize,
    base: u64,
    // Whether no more come.
    ended: bool,
    input: Stdin,
}

impl Window {
    pub fn new(input: Stdin) -> Window {
        Window {
            room: large_buffer(),
            to: 0,
            base: 0,
            ended: false,
            input,
        }
    }

    fn bytes(&self) -> &[u8] {
        front(&self.room, self.to)
    }

    // The record that begins at a place of the window.
    pub fn next_record(&self, from: usize) -> Next {
        tape::next_record(self.bytes(), from, self.ended)
    }

    // Which byte of the image stands at a place of the window.
    pub fn place(&self, at: usize) -> u64 {
        self.base.wrapping_add(at as u64)
    }

    // The n words of the block whose data begin at a place, brought to the front of the room for words.
    pub fn words<'a>(&self, at: usize, n: usize, words: &'a mut [u64]) -> &'a [u64] {
        tape::block_words(self.bytes(), at, n, words, 0);
        words.get(..n).unwrap_or(words)
    }

    // Brings the bytes from a place on to the front of the room, and reads more after them.
    pub fn read_more(&mut self, from: usize) -> Result<(), Failure> {
        let to = self.to.min(self.room.len());
        let from = from.min(to);
        self.room.copy_within(from..to, 0);
        self.base = self.place(from);
        let left = to - from;
        let Ok(n) = self.input.read(&mut self.room[left..]) else {
            return Err(Failure::Input);
        };
        self.to = left + n;
        self.ended = n == 0;
        Ok(())
    }
}
