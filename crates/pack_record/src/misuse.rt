// Row 1 of a call on a file that is lent the area.
ghost use Rattle.std.specs.Prelude.{◌≡◌};
ghost use Rattle.pack_record.specs.Misused.{misused};

use pool::FILES;
use state::{State, area_short};
use state_sound::is_sound;

// Whether the file number is outside its range, an area of n words is short, or the state is unsound.
pub fn is_misused(s: State, n: usize, file: u8) -> bool
    ensures { result ≡ misused s n file }
{
    (FILES <= file as usize) | (area_short(s, n) | !is_sound(s))
}
