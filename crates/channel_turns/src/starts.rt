// Starts: a channel that is idle and not frozen works for the request whose turn it is; a thaw, an ask, and the channel after a call's small change.
ghost use Rattle.std.specs.Prelude.{◌≡◌};
ghost use Rattle.channel_turns.specs.Starts.{begun_turn, begun_at, thaw_of, ask_of};
ghost use Rattle.channel_turns.specs.Desks.{moved_to};

use crate::desks::desk_of;
use crate::moves::{ask_move, start_on};
use crate::{Asked, Move};
use channel::{Channel, Op, Turn, accepts, turn_of, unit_of, with_turn, with_unit};

fn begun_turn(t: Turn) -> Turn
    ensures { result ≡ begun_turn t }
{
    match t {
        Turn::Idle => Turn::Idle,
        Turn::Waiting(q) | Turn::Displaced(q) | Turn::Working(q) => Turn::Working(q),
    }
}

// The request of the unit that was found is worked for.
fn begun(c: Channel, found: Option<usize>) -> Channel
    ensures { result ≡ begun_at c found }
{
    match found {
        Some(u) => with_turn(c, u, begun_turn(turn_of(c, u))),
        None => c,
    }
}

// What a thaw does to a channel.
#[tactic(auto, using(crate::proofs::Laws::Desks::n_starts), unfolding(crate::specs::Starts::thaw_of))]
pub fn thaw(c: Channel) -> Channel
    ensures { result ≡ thaw_of c }
{
    begun(c, start_on(desk_of(c), false).unit)
}

// The channel after what a call makes of its unit.
#[tactic(auto, unfolding(crate::specs::Desks::moved_to))]
pub fn moved_to(c: Channel, unit: usize, m: Move) -> Channel
    ensures { result ≡ moved_to c unit m }
{
    let d = Channel {
        mark: m.mark,
        urgent: m.urgent,
        ..with_unit(c, unit, m.turn, m.position)
    };
    begun(d, m.starts)
}

// A request of the unit, accepted if it is declared and has none.
#[tactic(auto, using(crate::proofs::Laws::Desks::n_asks))]
pub fn ask(c: Channel, unit: usize, op: Op, priority: bool, frozen: bool) -> Asked
    ensures { result ≡ ask_of c unit op priority frozen }
{
    let m = ask_move(unit_of(c, unit), unit, desk_of(c), op, priority, frozen);
    Asked {
        accepted: accepts(c, unit),
        channel: moved_to(c, unit, m),
    }
}
