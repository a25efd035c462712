// Which file serves a unit of a channel.
ghost use Rattle.std.specs.Prelude.{◌≡◌};
ghost use Rattle.pool.specs.Serving.{serves as servesUnit, serving_file, file_serving, is_bound};

use crate::FILES;
use file::File;

// Whether the file is open on that unit.
pub fn serves(f: File, channel: u8, unit: u8) -> bool
    ensures { result ≡ servesUnit channel unit f }
{
    f.opened & ((f.channel == channel) & (f.unit == unit))
}

// The number of the file that is open on that unit.
pub fn serving_file(files: [File; FILES], channel: u8, unit: u8) -> Option<usize>
    ensures { result ≡ serving_file files channel unit }
{
    for i in 0..FILES {
        if serves(files[i], channel, unit) {
            return Some(i);
        }
    }
    None
}

// That number; past the last file if there is none.
pub fn file_of(files: [File; FILES], channel: u8, unit: u8) -> usize
    ensures { result ≡ file_serving files channel unit }
{
    match serving_file(files, channel, unit) {
        Some(i) => i,
        None => FILES,
    }
}

// Whether a file is open on that unit.
pub fn is_bound(files: [File; FILES], channel: u8, unit: u8) -> bool
    ensures { result ≡ is_bound files channel unit }
{
    serving_file(files, channel, unit).is_some()
}
