// Why a run stops.

use std::{fmt, io};

#[derive(Clone, Copy)]
pub enum Failure {
    // The open is refused with that number.
    Sizes(u8),
    // The output cannot be written.
    Output,
    // The text cannot be read.
    Input,
    // The line of that number is refused; a record has so many words.
    Line {
        refusal: u8,
        number: u64,
        record: u16,
    },
    // A line is no block: the image that it comes from has a fault.
    NoBlock,
    // The pack refuses with that number what no text and no image can make it refuse.
    Pack(u8),
}

impl fmt::Display for Failure {
    fn fmt<W: fmt::Write>(&self, f: &mut fmt::Formatter<W>) -> fmt::Result {
        match self {
            Failure::Sizes(refusal) => write!(
                f,
                "refused {refusal}: a block has 1 to 1,024 words with its check word, and a record 1 to as many words as a block without it"
            ),
            Failure::Output => write!(f, "reel: the output cannot be written"),
            Failure::Input => write!(f, "reel: the text cannot be read"),
            Failure::Line {
                refusal,
                number,
                record,
            } => {
                write!(f, "refused {refusal} at line {number}: ")?;
                match refusal {
                    1 => write!(f, "this is no line of words"),
                    2 => write!(f, "a word is 2^36 or more"),
                    _ => write!(f, "a record here has words {record}"),
                }
            }
            Failure::NoBlock => write!(f, "reel: the image has a fault"),
            Failure::Pack(refusal) => write!(f, "reel: the pack refused {refusal}"),
        }
    }
}

// Lines are put together in memory and written to the output.
impl From<io::Error> for Failure {
    fn from(_error: io::Error) -> Failure {
        Failure::Output
    }
}
