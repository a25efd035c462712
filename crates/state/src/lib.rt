// The whole state of a pack by value: the pool's two numbers, the freeze, five channels, sixteen files, a bit for each free buffer, and the special routines. A file,
// a channel or the routines are looked up or replaced. When a state is sound stands in `state_sound`. It knows nothing of what a call does.
#![tactic(auto)]

mod answers;
mod places;
mod stores;

pub use answers::answer_of;
pub use channel::CHANNELS;
use channel::Channel;
use file::File;
pub use places::{area_short, before_start, channel_at, channel_in, file_at};
use pool::FILES;
use routines::Routines;
pub use stores::{with_channel, with_file, with_routines};

// A pool of m buffers of w words; whether starts are frozen; the channels with their units; the files; the free buffers, bit b for buffer b;
// what runs, and the routines that are named and that wait.
#[derive(Clone, Copy)]
pub struct State {
    pub m: u8,
    pub w: u16,
    pub frozen: bool,
    pub channels: [Channel; CHANNELS],
    pub files: [File; FILES],
    pub free: u32,
    pub routines: Routines,
}

// The answer of a call that adds nothing to its refusal, 0 for none: and the state after it, which is the one passed if it is refused.
#[derive(Clone, Copy)]
pub struct Called {
    pub refusal: u8,
    pub state: State,
}
