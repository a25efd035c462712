// Why the showing stops before the image ends.

use std::{fmt, io};

#[derive(Clone, Copy)]
pub enum Failure {
    // The output cannot be written.
    Output,
    // The image cannot be read.
    Input,
    // The fault of that number, in the record that begins at that byte of the image.
    Fault { number: u8, byte: u64 },
}

// The sentence of a fault.
fn sentence(number: u8) -> &'static str {
    match number {
        20 => "the two lengths differ",
        21 => "the record is cut",
        22 => "the data length is no multiple of six",
        _ => "the length is over 6,144 or has another meaning",
    }
}

impl fmt::Display for Failure {
    fn fmt<W: fmt::Write>(&self, f: &mut fmt::Formatter<W>) -> fmt::Result {
        match self {
            Failure::Output => write!(f, "reel: the output cannot be written"),
            Failure::Input => write!(f, "reel: the image cannot be read"),
            Failure::Fault { number, byte } => {
                let why = sentence(*number);
                write!(f, "refused {number} at byte {byte}: {why}")
            }
        }
    }
}

// Lines are put together in memory and written to the output.
impl From<io::Error> for Failure {
    fn from(_error: io::Error) -> Failure {
        Failure::Output
    }
}
