// What a call on one file and one channel, which may change the routines, makes of the state.
ghost use Rattle.std.specs.Prelude.{◌≡◌};
ghost use Rattle.pack_request.specs.Changes.{changed_state};

use channel::Channel;
use file::File;
use routines::Routines;
use state::{State, with_channel, with_file, with_routines};

// The state with the file i, the channel j and the routines replaced, or as it was for a refusal.
pub fn changed_state(
    s: State,
    i: usize,
    j: usize,
    refusal: u8,
    f: File,
    c: Channel,
    r: Routines,
) -> State
    ensures { result ≡ changed_state s i j refusal f c r }
{
    if refusal == 0 {
        with_routines(with_file(with_channel(s, j, c), i, f), r)
    } else {
        s
    }
}
