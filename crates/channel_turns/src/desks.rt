// The desk of a channel, made by one pass over the units, and after one of them has come to stand otherwise.
ghost use Rattle.std.specs.Prelude.{◌≡◌, cond, ◌^◌, ◌<◌};
ghost use Rattle.std.specs.Int.Bits.{bit_or};
ghost use Rattle.channel.specs.Units.{unit_count};
ghost use Rattle.channel_turns.specs.Standings.{standing_number};
ghost use Rattle.channel_turns.specs.Desks.{desk_bits, desk_of, with_bit, seated_at};

use crate::Desk;
use crate::scans::{Standing, stands};
use channel::{Channel, UNITS};

// The mask with the bit of u set too, if it is to be.
#[tactic(auto, using(crate::proofs::Laws::Masks::also_set))]
fn with_also(mask: u16, u: usize, on: bool) -> u16
    requires { u < desk_bits }
    ensures { result ≡ cond on (bit_or mask (2 ^ u)) mask }
{
    if on { mask | (1 << u) } else { mask }
}

// The desk of a channel.
pub fn desk_of(c: Channel) -> Desk
    ensures { result ≡ desk_of c }
{
    let mut working: u16 = 0;
    let mut priority: u16 = 0;
    let mut ordinary: u16 = 0;
    for i in 0..UNITS {
        let t = c.units[i].turn;
        working = with_also(working, i, stands(t, Standing::Working));
        priority = with_also(priority, i, stands(t, Standing::Priority));
        ordinary = with_also(ordinary, i, stands(t, Standing::Ordinary));
    }
    Desk {
        mark: c.mark,
        urgent: c.urgent,
        working,
        priority,
        ordinary,
    }
}

// The mask with the bit of u set, or not.
#[tactic(auto, using(crate::proofs::Laws::Masks::bit_on, crate::proofs::Laws::Masks::bit_off))]
fn with_bit(mask: u16, u: usize, on: bool) -> u16
    requires { u < desk_bits }
    ensures { result ≡ with_bit mask u on }
{
    let bit: u16 = 1 << u;
    if on { mask | bit } else { mask & !bit }
}

// The desk after the unit has come to stand so.
#[tactic(auto, unfolding(crate::specs::Desks::seated_at))]
pub fn seated(d: Desk, u: usize, want: Standing) -> Desk
    ensures { result ≡ seated_at unit_count d u (standing_number want) }
{
    if UNITS <= u {
        return d;
    }
    Desk {
        working: with_bit(d.working, u, want == Standing::Working),
        priority: with_bit(d.priority, u, want == Standing::Priority),
        ordinary: with_bit(d.ordinary, u, want == Standing::Ordinary),
        ..d
    }
}
