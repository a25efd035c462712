// A session: its lines, put together from parts of any size, each decoded, played and answered once against the state and the area that the
// one before left. It knows nothing of where the parts come from and where the answers go.
#![tactic(auto)]

mod play;
mod slow;

pub use play::answer_line;
use session_frame::Frame;
use session_line::Line;
pub use slow::{new_talk, talk_end, talk_part};
use state::State;

// The most words that come with a line, and the most characters that an answer has with its line feed.
pub const WORDS: usize = 1024;

pub const ANSWER: usize = 10249;

// What a line comes to: the state after it, and the length of its answer.
#[derive(Clone, Copy)]
pub struct Answered {
    pub state: State,
    pub length: usize,
}

// The frame of a line, and how many words came with it.
#[derive(Clone, Copy)]
struct Framed {
    frame: Frame,
    count: usize,
}

// The player after some of a part: the state, the line that has begun, the place in the part, and how much of the output is written.
#[derive(Clone, Copy)]
pub struct Played {
    pub state: State,
    pub line: Line,
    pub at: usize,
    pub length: usize,
}

// A session that comes in parts: its state, what has begun of a line, and whether the input has ended.
#[derive(Clone, Copy)]
pub struct Talk {
    pub state: State,
    pub line: Line,
    pub ended: bool,
}

// The answer to a part or to the end: 0 or the refusal, the session after it, the place reached in the part, and how much of the output is written.
#[derive(Clone, Copy)]
pub struct Heard {
    pub refusal: u8,
    pub talk: Talk,
    pub at: usize,
    pub length: usize,
}
