// Freeze stops starts on all channels; thaw lets them happen, and the scheduler looks for a routine to enter.
ghost use Rattle.std.specs.Prelude.{◌≡◌, map};
ghost use Rattle.channel_turns.specs.Starts.{thaw_of};
ghost use Rattle.pack_start.specs.Freeze.{state_refusal, frozen_state, thawed_state, freeze_by, thaw_by};

use area::row;
use channel::Channel;
use routines::looked;
use state::{CHANNELS, Called, State};
use state_sound::is_sound;

// The refusal of a freeze or a thaw, 0 for none: the state is unsound.
fn state_refusal(s: State) -> u8
    ensures { result ≡ state_refusal s }
{
    let good = is_sound(s);
    row(1, !good, 0)
}

// The state, frozen.
pub fn frozen_state(s: State) -> State
    ensures { result ≡ frozen_state s }
{
    State { frozen: true, ..s }
}

// Every channel that is idle starts what is due.
fn all_started(channels: [Channel; CHANNELS]) -> [Channel; CHANNELS]
    ensures { result ≡ map thaw_of channels }
{
    let mut started = channels;
    for c in &mut started {
        *c = channel_turns::thaw(*c);
    }
    started
}

// The state, thawed, with what is due started on every channel; then the scheduler looks.
pub fn thawed_state(s: State) -> State
    ensures { result ≡ thawed_state s }
{
    State {
        frozen: false,
        channels: all_started(s.channels),
        routines: looked(s.routines, false),
        ..s
    }
}

// A freeze.
pub fn freeze(s: State) -> Called
    ensures { result ≡ freeze_by s }
{
    let no = state_refusal(s);
    if no != 0 {
        return Called {
            refusal: no,
            state: s,
        };
    }
    Called {
        refusal: 0,
        state: frozen_state(s),
    }
}

// A thaw.
pub fn thaw(s: State) -> Called
    ensures { result ≡ thaw_by s }
{
    let no = state_refusal(s);
    if no != 0 {
        return Called {
            refusal: no,
            state: s,
        };
    }
    Called {
        refusal: 0,
        state: thawed_state(s),
    }
}
