// Document 01's number and values for each answer of get.
ghost use Rattle.std.specs.Prelude.{◌≡◌};
ghost use Rattle.file_input.specs.Gets.{got_number, got_found, got_start, got_words};

use crate::Got;
use word::{Checked, not_checked};

// The number of an answer.
pub fn got_number(g: Got) -> u8
    ensures { result ≡ got_number g }
{
    match g {
        Got::Record { .. } => 0,
        Got::Leftover { .. } => 4,
        Got::Error(_) => 3,
        Got::End => 2,
        Got::Nothing => 1,
    }
}

// The error that an answer tells, with what was found of its block; all zero for any other.
pub fn got_found(g: Got) -> Checked
    ensures { result ≡ got_found g }
{
    match g {
        Got::Error(found) => found,
        _ => not_checked(),
    }
}

// Where in the area the words that an answer shows begin.
pub fn got_start(g: Got) -> usize
    ensures { result ≡ got_start g }
{
    match g {
        Got::Record { start, .. } | Got::Leftover { start, .. } => start,
        _ => 0,
    }
}

// How many words an answer shows.
pub fn got_count(g: Got) -> usize
    ensures { result ≡ got_words g }
{
    match g {
        Got::Record { words, .. } | Got::Leftover { words, .. } => words,
        _ => 0,
    }
}
