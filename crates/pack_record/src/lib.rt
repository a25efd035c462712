// The calls that a job makes of its files without a channel, get, skip, put and seal, on a whole state: each judges the state and the area that
// it is lent (row 1), looks the file up and stores what changes.
#![tactic(auto)]

mod gets;
mod misuse;
mod puts;
mod seals;
mod skips;

use file_input::Got;
pub use gets::{get, get_words};
pub use puts::put;
pub use seals::seal;
pub use skips::skip;
use state::State;

// What get answers: the refusal, or 0 and then what it found; and the state after it.
#[derive(Clone, Copy)]
pub struct Getting {
    pub refusal: u8,
    pub got: Got,
    pub state: State,
}
