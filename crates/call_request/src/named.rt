// What an ask and a report make of the routines: a request names one, which becomes due when it is answered.
ghost use Rattle.std.specs.Prelude.{◌≡◌};
ghost use Rattle.call_request.specs.Named.{asked_routines, answers_request, reported_routines};

use routines::{Naming, Routines, answered, asked, due_of};

// The results of a report that answer no request: the operation is repeated, or repeated after the cleaner pass.
const REPEATED: u8 = 0;

const CLEANED: u8 = 7;

// Whether a report with that result answers the request.
pub fn answers_request(res: u8) -> bool
    ensures { result ≡ answers_request res }
{
    !matches!(res, REPEATED | CLEANED)
}

// The routines after an accepted ask for a unit of a channel.
pub fn asked_routines(r: Routines, channel: usize, unit: usize, naming: Naming) -> Routines
    ensures { result ≡ asked_routines r channel unit naming }
{
    asked(r, channel, unit, due_of(naming))
}

// The routines after a report of a unit of a channel with that result; as they were for a refused one, whose result is 0.
pub fn reported_routines(
    r: Routines,
    frozen: bool,
    channel: usize,
    unit: usize,
    res: u8,
) -> Routines
    ensures { result ≡ reported_routines r frozen channel unit res }
{
    if answers_request(res) {
        answered(r, frozen, channel, unit)
    } else {
        r
    }
}
