// Where things stand in a state: lookups that answer for any number.
ghost use Rattle.std.specs.Prelude.{◌≡◌};
ghost use Rattle.state.specs.Places.{before_start, channel_in, file_at, channel_at, area_short};

use crate::{CHANNELS, State};
use channel::{Channel, fresh};
use file::{File, closed_file};
use pool::FILES;
use routines::no_routines;

// The state before the first fresh start: no buffers, no units, no file open; the main program runs.
pub fn before_start() -> State
    ensures { result ≡ before_start }
{
    State {
        m: 0,
        w: 0,
        frozen: false,
        channels: [fresh(0); CHANNELS],
        files: [closed_file(); FILES],
        free: 0,
        routines: no_routines(),
    }
}

// The file of that number, a closed one past the last.
pub fn file_at(s: State, i: usize) -> File
    ensures { result ≡ file_at s i }
{
    match s.files.get(i) {
        Some(file) => *file,
        None => closed_file(),
    }
}

// The channel of that number, one without units past the last.
fn channel_of(channels: &[Channel; CHANNELS], c: usize) -> Channel
    ensures { result ≡ channel_in channels.now c }
{
    match channels.get(c) {
        Some(channel) => *channel,
        None => fresh(0),
    }
}

pub fn channel_in(channels: [Channel; CHANNELS], c: usize) -> Channel
    ensures { result ≡ channel_in channels c }
{
    channel_of(&channels, c)
}

pub fn channel_at(s: State, c: usize) -> Channel
    ensures { result ≡ channel_at s c }
{
    channel_of(&s.channels, c)
}

// Whether an area of n words is too short for the pool.
pub fn area_short(s: State, n: usize) -> bool
    ensures { result ≡ area_short s n }
{
    n < (s.m as usize) * (s.w as usize)
}
