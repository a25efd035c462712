// Open on a whole state.
ghost use Rattle.std.specs.Prelude.{◌≡◌, ◌<◌};
ghost use Rattle.pack_open.specs.Open.{open_off, open_by};

use call_open::{FLAGS, open_on, wish_of};
use channel::UNITS;
use pool::{FILES, free_in, is_bound};
use state::{CHANNELS, Called, State, answer_of, channel_at, file_at};
use state_sound::is_sound;

// Whether row 1 applies to an open: an argument is outside its range, or the state is unsound.
fn open_off(s: State, file: u8, channel: u8, unit: u8, flags: u8) -> bool
    ensures { result ≡ open_off s file channel unit flags }
{
    let no_file = FILES <= file as usize;
    let no_channel = CHANNELS <= channel as usize;
    let no_unit = UNITS <= unit as usize;
    no_file | (no_channel | (no_unit | ((FLAGS < flags) | !is_sound(s))))
}

// An open, with its arguments as a frame has them.
pub fn open(s: State, file: u8, channel: u8, unit: u8, flags: u8, size: u16, rlen: u16) -> Called
    ensures { result ≡ open_by s file channel unit flags size rlen }
{
    let c1 = open_off(s, file, channel, unit, flags);
    let bound = is_bound(s.files, channel, unit);
    let f = file_at(s, file as usize);
    let c = channel_at(s, channel as usize);
    let free = free_in(s.free);
    let q = wish_of(channel, unit, flags, size, rlen);
    let x = open_on(c1, bound, f, c, free, s.w, q);
    answer_of(s, file, x)
}
