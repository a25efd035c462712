// An open file beside the unit that it is bound to.
ghost use Rattle.std.specs.Prelude.{◌≡◌, ◌&&◌, ◌+◌, ◌*◌, ◌≤◌, ◌<◌, length, drop, get_or};
ghost use Rattle.channel.specs.Units.{unit_count, channel_count};
ghost use Rattle.state_image.specs.Files.{file_size, file_codec};
ghost use Rattle.state_image.specs.Images.{state_size};
ghost use Rattle.image_sound.specs.Judging.{ready_by, unit_place, channels_in, fits_unit, KindsThere};

use channel::{CHANNELS, UNITS};
use state_image::{CHANNEL, CHANNEL_OWN, FULL, STATE_OWN, TAKEN, UNIT};

fn wide(x: u8) -> usize
    ensures { result ≡ x }
{
    x as usize
}

// Where the bytes of a unit stand.
pub fn unit_place(channel: usize, unit: usize) -> usize
    requires { (channel < channel_count) × (unit < unit_count) }
    ensures { result ≡ unit_place channel unit }
{
    STATE_OWN + channel * CHANNEL + (CHANNEL_OWN + unit * UNIT)
}

// Whether a file is ready for what is requested of its unit, by the unit's and the file's bytes: whether anything is, the operation, the direction, and the kinds
// of what its buffers hold.
fn ready_by(kind: u8, op: u8, output: bool, low: u8, high: u8) -> bool
    ensures { result ≡ ready_by kind op output low high }
{
    let none = kind == 0;
    let read = !none & (op == 0);
    let write = !none & (op == 1);
    let way = none | (((op == 0) & !output) | (!(op == 0) & output));
    let taken = (low == TAKEN) | (high == TAKEN);
    let both = (low == TAKEN) & (high == TAKEN);
    let full = (low == FULL) | (high == FULL);
    way & (((!read | taken) & ((read | !taken) & !both)) & (!write | full))
}

// Whether the open file at `at` has a declared unit and is ready for its unit's request.
pub fn file_fits(b: &[u8], at: usize) -> bool
    requires { (at + file_size ≤ length b.now) × (state_size unit_count ≤ length b.now) × KindsThere (drop at b.now) }
    ensures { result ≡ fits_unit (channels_in b.now) (file_codec.read (drop at b.now)) }
{
    let channel = wide(b[at + 1]);
    let unit = wide(b[at + 2]);
    if CHANNELS <= channel {
        return false;
    }
    if UNITS <= unit {
        return false;
    }
    let to = unit_place(channel, unit);
    let ready = ready_by(b[to + 1], b[to + 2], b[at + 3] == 1, b[at + 16], b[at + 36]);
    (b[to] == 1) & ready
}
