// Replacements in a state, which leave all else alone.
ghost use Rattle.std.specs.Prelude.{◌≡◌};
ghost use Rattle.state.specs.Stores.{with_file, with_channel, with_routines};

use crate::{CHANNELS, State};
use channel::Channel;
use file::File;
use pool::{FILES, free_after};
use routines::Routines;

// The state with another file in the place of that number, unchanged past the last. A file that is opened takes its buffers from the free ones,
// one that is closed gives them back.
pub fn with_file(mut s: State, i: usize, f: File) -> State
    ensures { result ≡ with_file s i f }
{
    if FILES <= i {
        return s;
    }
    s.free = free_after(s.free, s.files[i], f);
    s.files[i] = f;
    s
}

// The state with another channel in the place of that number, unchanged past the last.
pub fn with_channel(mut s: State, c: usize, x: Channel) -> State
    ensures { result ≡ with_channel s c x }
{
    if CHANNELS <= c {
        return s;
    }
    s.channels[c] = x;
    s
}

// The state with other routines.
pub fn with_routines(s: State, r: Routines) -> State
    ensures { result ≡ with_routines s r }
{
    State { routines: r, ..s }
}
