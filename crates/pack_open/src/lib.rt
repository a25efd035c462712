// Open and close on a whole state: each judges the state, looks the file and the channel up and stores what changes. Neither writes a word.
#![tactic(auto)]

mod closes;
mod opens;

pub use closes::close;
pub use opens::open;
