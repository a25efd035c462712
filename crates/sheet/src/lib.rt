// The adjudication sheet: a recorded session is played afresh, its answers are compared with the recorded ones, and every accepted request is
// followed to its answer. The session and the recorded answers come in parts, cut anywhere. The requests are those of the session as it is played, whatever
// was recorded. It knows nothing of where the parts come from and how a sheet is shown.
#![tactic(auto)]

mod calls;
mod events;
mod lines;
mod rows;

pub use calls::{answers_end, answers_part, new_desk, session_end, session_part};
use session_line::Line;
use state::State;

// The most requests that are listed.
pub const LISTED: usize = 512;

// What a line comes to for the sheet: an accepted ask of a file on its channel and unit, an accepted report on a channel and unit and whether it
// answered the request, an accepted fresh start, or nothing of these.
#[derive(Clone, Copy)]
pub struct Event {
    pub asked: bool,
    pub reported: bool,
    pub answered: bool,
    pub started: bool,
    pub file: u8,
    pub channel: u8,
    pub unit: u8,
}

// A request: its file, channel and unit, the frame of its acceptance, the frame of its answer or 0, the reports that its channel accepted since,
// and whether it is followed still.
#[derive(Clone, Copy)]
pub struct Row {
    pub file: u8,
    pub channel: u8,
    pub unit: u8,
    pub asked: u64,
    pub answered: u64,
    pub reports: u64,
    pub live: bool,
}

// The requests that are listed, `count` of them, and whether there were more.
#[derive(Clone, Copy)]
pub struct Listed {
    pub rows: [Row; LISTED],
    pub count: usize,
    pub more: bool,
}

// The two inputs between two calls: the state; what has begun of a line of the session and of a recorded line; the frames so far, the first that
// differs or 0; whether an answer waits for its recorded line, and its length without line feed; whether the session and the recorded
// answers have ended; and the requests.
#[derive(Clone, Copy)]
pub struct Desk {
    pub state: State,
    pub session: Line,
    pub recorded: Line,
    pub frames: u64,
    pub differs: u64,
    pub waits: bool,
    pub length: usize,
    pub over: bool,
    pub done: bool,
    pub listed: Listed,
}

// The desk after some of a part, and the place in the part.
#[derive(Clone, Copy)]
pub struct Taken {
    pub desk: Desk,
    pub at: usize,
}
