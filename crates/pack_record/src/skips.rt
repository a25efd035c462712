// Skip on a whole state.
ghost use Rattle.std.specs.Prelude.{◌≡◌};
ghost use Rattle.pack_record.specs.Skips.{skip_by};

use call_record::skip_on;
use pool::FILES;
use state::{Called, State, answer_of, file_at};
use state_sound::is_sound;

// Skip: the state without the oldest full block of the file.
pub fn skip(s: State, file: u8) -> Called
    ensures { result ≡ skip_by s file }
{
    let c1 = (FILES <= file as usize) | !is_sound(s);
    let f = file_at(s, file as usize);
    let x = skip_on(c1, f);
    answer_of(s, file, x)
}
