// Close on a whole state.
ghost use Rattle.std.specs.Prelude.{◌≡◌};
ghost use Rattle.pack_open.specs.Close.{close_off, close_by};

use call_open::close_on;
use pool::FILES;
use state::{Called, State, answer_of, channel_at, file_at};
use state_sound::is_sound;

// Whether row 1 applies to a close: the file number is outside its range, or the state is unsound.
fn close_off(s: State, file: u8) -> bool
    ensures { result ≡ close_off s file }
{
    (FILES <= file as usize) | !is_sound(s)
}

// A close of that file number.
pub fn close(s: State, file: u8) -> Called
    ensures { result ≡ close_by s file }
{
    let c1 = close_off(s, file);
    let f = file_at(s, file as usize);
    let c = channel_at(s, f.channel as usize);
    let x = close_on(c1, f, c);
    answer_of(s, file, x)
}
