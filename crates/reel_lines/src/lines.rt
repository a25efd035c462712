// The lines of a text, and what each says.

use reel::WORDS;
use session_line::{Line, has_begun, next_line, no_line};

// The most characters of a line: those of 1,024 words.
const LINE: usize = 10 * WORDS;

// What a line says.
#[derive(Clone, Copy)]
pub enum Said<'a> {
    Words(&'a [u64]),
    Mark,
    // For reading: the image has a fault here.
    Fault,
    // Nothing that is known.
    Bad,
    // More than a line can say.
    Long,
}

// The line that has begun.
#[derive(Drop)]
pub struct Lines {
    room: [u8; LINE],
    line: Line,
}

fn is_digit(c: u8) -> bool {
    ((b'0' <= c) & (c <= b'9')) | ((b'A' <= c) & (c <= b'F'))
}

// Whether a line is digits. It looks at all of it, without a branch for each, so that many are seen at once: lines are long, and few are bad.
fn all_digits(line: &[u8]) -> bool {
    line.iter().fold(true, |good, c| good & is_digit(*c))
}

// What a whole line says; its words go to the front of the room. Ten digits are a word.
fn says<'a>(line: &[u8], words: &'a mut [u64]) -> Said<'a> {
    if line == b"MARK".as_slice() {
        return Said::Mark;
    }
    if line == b"FAULT".as_slice() {
        return Said::Fault;
    }
    if line.len() % 10 != 0 || !all_digits(line) {
        return Said::Bad;
    }
    let n = session_frame::words_into(line, 0, words);
    Said::Words(words.get(..n).unwrap_or(words))
}

impl Lines {
    pub fn new() -> Lines {
        Lines {
            room: [0; LINE],
            line: no_line(),
        }
    }

    // Takes the bytes from a place on, as far as the line goes. If it ends among them, the answer is the place after it.
    pub fn next(&mut self, bytes: &[u8], at: usize) -> Option<usize> {
        let step = next_line(bytes, at, &mut self.room, self.line);
        self.line = step.line;
        step.ended.then_some(step.at)
    }

    pub fn has_begun(&self) -> bool {
        has_begun(self.line)
    }

    // What the line that has ended says, with its words at the front of a lent room; the next begins.
    pub fn said<'a>(&mut self, words: &'a mut [u64]) -> Said<'a> {
        let line = self.line;
        self.line = no_line();
        if line.overlong {
            return Said::Long;
        }
        says(self.room.get(..line.filled).unwrap_or(&self.room), words)
    }
}
