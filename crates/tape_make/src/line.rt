// A line of words, put together from its characters.

use crate::failure::Refusal;

// The most words of a block.
pub const WORDS: usize = 1024;

// What is below 2^36 is a word.
const LIMIT: u64 = 0x10_0000_0000;

// A line as far as it has come; the first 1,024 of its words stand at the front of a lent room.
#[derive(Clone, Copy)]
pub struct Line {
    // How many words are whole.
    words: usize,
    // The digits of the word that has begun, and its value so far.
    digits: u8,
    value: u64,
    // The lowest refusal of what has come.
    refusal: Option<Refusal>,
    // What is missing to `MARK`, if the line begins as that does.
    mark: Option<&'static [u8]>,
}

impl Default for Line {
    fn default() -> Line {
        Line {
            words: 0,
            digits: 0,
            value: 0,
            refusal: None,
            mark: Some(b"MARK"),
        }
    }
}

// The number that a digit is: 0 to 9, and A to F for ten to fifteen.
fn digit_value(c: u8) -> Option<u64> {
    match c {
        b'0'..=b'9' => Some(u64::from(c - b'0')),
        b'A'..=b'F' => Some(u64::from(c - b'A') + 10),
        _ => None,
    }
}

impl Line {
    // Adds a character.
    pub fn push(&mut self, c: u8, room: &mut [u64; WORDS]) {
        self.mark = self.mark.and_then(|rest| rest.strip_prefix(&[c]));
        match digit_value(c) {
            Some(digit) => self.push_digit(digit, room),
            None => self.refusal = Some(Refusal::NoWords),
        }
    }

    // Ten digits are a word. What nine are is below 2^36.
    fn push_digit(&mut self, digit: u64, room: &mut [u64; WORDS]) {
        let value = (self.value % LIMIT) * 16 + digit % 16;
        if self.digits < 9 {
            self.digits += 1;
            self.value = value;
            return;
        }
        self.digits = 0;
        self.value = 0;
        if LIMIT <= value {
            self.refusal = self.refusal.or(Some(Refusal::Tall));
        }
        if let Some(word) = room.get_mut(self.words) {
            *word = value;
        }
        self.words = self.words.saturating_add(1);
    }

    pub fn is_mark(&self) -> bool {
        matches!(self.mark, Some([]))
    }

    // How many words it has, as a line that has ended.
    pub fn count(&self) -> Result<usize, Refusal> {
        if self.digits != 0 {
            return Err(Refusal::NoWords);
        }
        if let Some(refusal) = self.refusal {
            return Err(refusal);
        }
        if WORDS < self.words {
            return Err(Refusal::Size);
        }
        Ok(self.words)
    }
}
