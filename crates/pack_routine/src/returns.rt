// Return and what runs on a whole state.
ghost use Rattle.std.specs.Prelude.{◌≡◌};
ghost use Rattle.pack_routine.specs.Calls.{ran_in, return_by, running_by};

use crate::ons::{return_on, running_on};
use crate::{Ran, RoutineChange};
use state::{State, with_routines};
use state_sound::is_sound;

// The answer, with the routines that a call leaves in their place.
fn ran_in(s: State, x: RoutineChange) -> Ran
    ensures { result ≡ ran_in s x }
{
    Ran {
        refusal: x.refusal,
        entered: x.entered,
        program: x.program,
        state: with_routines(s, x.routines),
    }
}

// A return of the routine that runs. A refusal gives the state that was passed.
pub fn give_back(s: State) -> Ran
    ensures { result ≡ return_by s }
{
    let whole = is_sound(s);
    ran_in(s, return_on(!whole, s.frozen, s.routines))
}

// Which program runs. The state is the one that was passed.
pub fn what_runs(s: State) -> Ran
    ensures { result ≡ running_by s }
{
    let whole = is_sound(s);
    ran_in(s, running_on(!whole, s.routines))
}
