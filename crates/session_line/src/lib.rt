// The lines of a session, put together from parts of any size: a part may end anywhere. The line that has begun lies at the front of
// a lent room; a line that is longer than the room is overlong, and nothing is kept of it but that.
// It knows nothing of what a line means: whoever plays the session calls `next_line` until a part is used up.
#![tactic(auto)]

mod grow;
mod next;

pub use next::{has_begun, next_line, no_line};

// A line that has begun: how many of its characters stand at the front of the room, or that it is overlong.
#[derive(Clone, Copy)]
pub struct Line {
    pub filled: usize,
    pub overlong: bool,
}

// The line after some bytes of a part, the place after them, and whether the line has ended there.
#[derive(Clone, Copy)]
pub struct Step {
    pub line: Line,
    pub at: usize,
    pub ended: bool,
}
