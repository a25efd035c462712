// Why the making stops before the text ends.

use std::fmt;

// Why a line is refused.
#[derive(Clone, Copy)]
pub enum Refusal {
    // It is no line of words.
    NoWords,
    // A word is 2^36 or more.
    Tall,
    // A block of so many words cannot be written.
    Size,
}

#[derive(Clone, Copy)]
pub enum Failure {
    // The image cannot be written.
    Output,
    // The text cannot be read.
    Input,
    // The line of that number is refused.
    Line { number: u64, refusal: Refusal },
}

impl fmt::Display for Failure {
    fn fmt<W: fmt::Write>(&self, f: &mut fmt::Formatter<W>) -> fmt::Result {
        match self {
            Failure::Output => write!(f, "reel: the image cannot be written"),
            Failure::Input => write!(f, "reel: the text cannot be read"),
            Failure::Line { number, refusal } => match refusal {
                Refusal::NoWords => {
                    write!(f, "refused 1 at line {number}: this is no line of words")
                }
                Refusal::Tall => write!(f, "refused 2 at line {number}: a word is 2^36 or more"),
                Refusal::Size => {
                    write!(
                        f,
                        "refused 13 at line {number}: a block has 1 to 1,024 words"
                    )
                }
            },
        }
    }
}
