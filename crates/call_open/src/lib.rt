// Open and close on the one file and the one channel that they concern: their rows of the refusal table, and the file after them.
// It knows nothing of states.
#![tactic(auto)]

mod closes;
mod opens;

pub use closes::close_on;
pub use opens::{open_on, wish_of};

// All four flags of an open together.
pub const FLAGS: u8 = 15;
