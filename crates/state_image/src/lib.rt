// The image of a state with its area of 4,096 words: bytes of one form for each state, read from a lent byte area and written to it in one pass.
// A field of a state is a line in the row of its struct, on writing and on reading; rows, lists of structs and the state are put together from these.
// Each run of values has a loop of its own, as the size of a value may depend on the number of units; one loop over a trait with a codec is not tried.
// It knows nothing of calls.
#![tactic(auto)]

mod files;
mod images;
mod programs;
mod units;
mod words;

pub use files::{EMPTY, FULL, PART, TAKEN, arrival_at, file_at};
pub use images::{IMAGE, STATE_OWN, image_in, put_image, read_area};
use state::State;
pub use units::{CHANNEL, CHANNEL_OWN, UNIT};

// What stands in a byte area: whether it is the image of a sound state, and that state.
#[derive(Clone, Copy)]
pub struct Image {
    pub good: bool,
    pub state: State,
}
