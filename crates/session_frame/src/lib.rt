// A line of a session to a frame: which call it names and its numbers, as they stand in the line; and an answer to its line: its bytes and
// words as upper-case hexadecimal digits, and a line feed, into a lent area. Words stay in the line until `words_into` brings them to a room.
// Whether a number is in its range, and which answer a call has, is the pack's to say. It knows nothing of how lines are cut.
#![tactic(auto)]

mod answers;
mod frames;

pub use answers::write_answer;
pub use frames::{frame_of, words_at, words_into};
use routines::{Naming, Program};
use word::Checked;

// The most characters that a line has: a report with a length and 1,024 words.
pub const LONGEST: usize = 10252;

// The unit masks of the five channels: bit u for unit u.
#[derive(Clone, Copy)]
pub struct Masks {
    pub a: u16,
    pub b: u16,
    pub c: u16,
    pub d: u16,
    pub e: u16,
}

// A fresh start: m buffers of w words, and the units.
#[derive(Clone, Copy)]
pub struct FreshFrame {
    pub m: u8,
    pub w: u16,
    pub masks: Masks,
}

// An open; `size` is B and `rlen` is r.
#[derive(Clone, Copy)]
pub struct OpenFrame {
    pub file: u8,
    pub channel: u8,
    pub unit: u8,
    pub flags: u8,
    pub size: u16,
    pub rlen: u16,
}

// An ask, and what it says of a special routine.
#[derive(Clone, Copy)]
pub struct AskFrame {
    pub file: u8,
    pub op: u8,
    pub priority: u8,
    pub naming: Naming,
}

// A report; `length` is the length in words that it carries, `channel_outcomes::NO_LENGTH` for none, and `words` is how many words come with it.
#[derive(Clone, Copy)]
pub struct ReportFrame {
    pub channel: u8,
    pub unit: u8,
    pub outcome: u8,
    pub length: u32,
    pub words: usize,
}

// A put; `words` is how many words come with it.
#[derive(Clone, Copy)]
pub struct PutFrame {
    pub file: u8,
    pub words: usize,
}

// A call as its line has it. One that names a file alone holds that file's number.
#[derive(Clone, Copy)]
pub enum Frame {
    Malformed,
    Fresh(FreshFrame),
    Open(OpenFrame),
    Close(u8),
    Ask(AskFrame),
    Report(ReportFrame),
    Get(u8),
    Put(PutFrame),
    Seal(u8),
    Skip(u8),
    Freeze,
    Thaw,
    // the return of the routine that runs
    Return,
    // what runs
    Running,
}

// An answer, its words left out: they are a part of the area, passed beside it.
#[derive(Clone, Copy)]
pub enum Answer {
    // a refusal's number
    Refused(u8),
    // a call whose answer adds nothing
    Done,
    // ask: the unit that the channel works for
    Asked {
        working: u8,
    },
    // report that delivers no block: its result, the unit that the channel works for; words if it ends a write
    Reported {
        result: u8,
        working: u8,
    },
    // report that delivers a block: its result, what the check found, the unit that the channel works for
    Delivered {
        result: u8,
        found: Checked,
        working: u8,
    },
    // get: the number of what it found, and its words
    Got(u8),
    // get: the number of an error, and what the check found
    GotError {
        number: u8,
        found: Checked,
    },
    // return: whether a waiting routine was entered, and what runs now
    Returned {
        entered: bool,
        program: Program,
    },
    // what runs
    Runs(Program),
}

// The most bytes of an answer ahead of its words: a report that delivers a block.
pub const LEAD: usize = 16;

// The bytes of an answer ahead of its words, `count` of them, and whether words follow.
#[derive(Clone, Copy)]
pub struct Lead {
    pub count: usize,
    pub bytes: [u8; LEAD],
    pub worded: bool,
}
