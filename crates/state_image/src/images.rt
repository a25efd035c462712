// A whole state and its area as an image.
ghost use Rattle.std.specs.Prelude.{◌≡◌, cond, ◌+◌, ◌*◌, ◌≤◌, length, take};
ghost use Rattle.area.specs.Parts.{paste};
ghost use Rattle.channel.specs.Units.{unit_count};
ghost use Rattle.codec.specs.Codecs.{same};
ghost use Rattle.state_image.specs.Images.{state_row, state_codec, state_size, state_in, area_in, image_of, image_in, image_fits};

use crate::Image;
use crate::files::{FILE_BYTES, files_at, put_files};
use crate::programs::{ROUTINE_BYTES, put_routines, routines_at};
use crate::units::{CHANNEL, CHANNEL_OWN, UNIT, channels_at, put_channels};
use crate::words::{ALL_WORDS, WORDS, put_words, read_words};
use channel::UNITS;
use codec::{are_same, put_bytes, two_at};
use pool::free_mask;
use state::{CHANNELS, State, before_start};
use state_sound::is_sound;

// The bytes of a state's own numbers.
pub const STATE_OWN: usize = 4;

// The bytes of a state, and of its image with the area.
const STATE: usize = STATE_OWN + (CHANNELS * CHANNEL + (FILE_BYTES + ROUTINE_BYTES));

pub const IMAGE: usize = STATE + ALL_WORDS;

// The bytes of a state's own numbers.
fn state_row(s: State) -> [u8; STATE_OWN]
    ensures { result ≡ state_row s }
{
    [s.m, s.frozen as u8, (s.w % 256) as u8, (s.w / 256) as u8]
}

// Puts the bytes of a state with n units on each channel at the front of the area.
fn put_state(out: &mut [u8], s: State, n: usize)
    requires { (n ≤ unit_count) × (state_size n ≤ length out.old) }
    ensures { out.new ≡ paste 0 ((state_codec n).write s) out.old }
{
    let own = state_row(s);
    put_bytes(out, 0, &own);
    put_channels(out, STATE_OWN, s.channels, n);
    put_files(
        out,
        STATE_OWN + CHANNELS * (CHANNEL_OWN + n * UNIT),
        s.files,
    );
    put_routines(
        out,
        STATE_OWN + (CHANNELS * (CHANNEL_OWN + n * UNIT) + FILE_BYTES),
        s.routines,
        n,
    );
}

// The state with n units on each channel that stands at the front of the area.
fn state_at(b: &[u8], n: usize) -> State
    requires { (n ≤ unit_count) × (state_size n ≤ length b.now) }
    ensures { result ≡ (state_codec n).read b.now }
{
    let w = two_at(b, 2);
    let channels = channels_at(b, STATE_OWN, n);
    let files = files_at(b, STATE_OWN + CHANNELS * (CHANNEL_OWN + n * UNIT));
    let routines = routines_at(
        b,
        STATE_OWN + (CHANNELS * (CHANNEL_OWN + n * UNIT) + FILE_BYTES),
        n,
    );
    let free = free_mask(b[0], files);
    State {
        m: b[0],
        w,
        frozen: b[1] == 1,
        channels,
        files,
        free,
        routines,
    }
}

// Whether the state's bytes are these.
fn has_bytes(b: &[u8], s: State) -> bool
    ensures { result ≡ same ((state_codec unit_count).write s) b.now }
{
    let mut bytes = [0u8; STATE];
    put_state(&mut bytes, s, UNITS);
    are_same(&bytes, b)
}

// Whether the bytes are the image of a sound state, and that state. Bytes of another size stand for none, and the state before the first fresh start is given.
pub fn image_in(b: &[u8]) -> Image
    ensures { result ≡ image_in b.now }
{
    if b.len() != IMAGE {
        return Image {
            good: false,
            state: before_start(),
        };
    }
    let s = state_at(b, UNITS);
    let sound = is_sound(s);
    let same = has_bytes(&b[..STATE], s);
    Image {
        good: sound & same,
        state: s,
    }
}

// The words of an image into the area. Where either has another size, nothing changes.
pub fn read_area(b: &[u8], area: &mut [u64])
    ensures { area.new ≡ cond (image_fits b.now area.old) (area_in unit_count b.now) area.old }
{
    if b.len() != IMAGE {
        return;
    }
    if area.len() != WORDS {
        return;
    }
    read_words(b, STATE, area);
}

// Puts the image of a state and its area into a byte area. Where either has another size, nothing changes.
pub fn put_image(out: &mut [u8], s: State, area: &[u64])
    ensures { out.new ≡ cond (image_fits out.old area.now) (image_of unit_count s area.now) out.old }
{
    if out.len() != IMAGE {
        return;
    }
    if area.len() != WORDS {
        return;
    }
    put_state(out, s, UNITS);
    put_words(out, STATE, area);
}
