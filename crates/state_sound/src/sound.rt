// Whether a state that a caller passes back is sound.
ghost use Rattle.std.specs.Prelude.{◌≡◌};
ghost use Rattle.state_sound.specs.Soundness.{sound};
ghost use Rattle.state_sound.specs.Judged.{judged_state};

use crate::channels::{channels_right, files_fit};
use crate::files::files_sound;
use pool::{free_mask, pool_sound};
use routines_sound::routines_right;
use state::State;

// Document 01's paragraph in four passes: the pool, each file and every two, each file with its unit, each channel; the free mask, which is
// compared with what the files hold; and the routines beside the channels.
fn is_judged(s: State) -> bool
    ensures { result ≡ judged_state s }
{
    let pool = pool_sound(s.m, s.w);
    let own = files_sound(s.m, s.w, s.files);
    let fits = files_fit(s.channels, s.files);
    let turns = channels_right(s.m, s.frozen, s.files, s.channels);
    let free = free_mask(s.m, s.files);
    let right = routines_right(s.channels, s.frozen, s.routines);
    pool & (own & (fits & (turns & ((s.free == free) & right))))
}

// Whether the state is sound: document 01's paragraph "A state passed back by the caller is sound if ..", a right free mask and right routines, for any state.
pub fn is_sound(s: State) -> bool
    ensures { result ≡ sound s }
{
    is_judged(s)
}
