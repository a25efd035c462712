// A channel's units: a fresh start, what can be seen of a unit, and another turn at one. A number that is no unit's is that of an undeclared unit.
ghost use Rattle.std.specs.Prelude.{◌≡◌};
ghost use Rattle.channel.specs.Units.{at_start, idle_unit, fresh_of, is_idle, unit_at, declared_at, turn_at, position_at, with_unit, with_turn, has_request, accepts_at, work_of, operation_at};

use crate::{Channel, Op, Position, Turn, UNITS, Unit};

// The position at a fresh start: nothing was passed or met.
fn at_start() -> Position
    ensures { result ≡ at_start }
{
    Position {
        marks: 0,
        records: 0,
        noisy: false,
    }
}

// A unit without a request, whose reel stands at its start.
fn idle_unit(declared: bool) -> Unit
    ensures { result ≡ idle_unit declared }
{
    Unit {
        declared,
        turn: Turn::Idle,
        position: at_start(),
    }
}

// A channel after a fresh start: unit u is declared if bit u of the mask is set, nothing is asked for, and every reel stands at its start.
pub fn fresh(mask: u16) -> Channel
    ensures { result ≡ fresh_of mask }
{
    let mut units = [idle_unit(false); UNITS];
    for i in 0..UNITS {
        units[i] = idle_unit((mask >> i) % 2 == 1);
    }
    Channel {
        units,
        mark: 0,
        urgent: 0,
    }
}

// The unit of that number, an undeclared one past the last.
#[tactic(auto, using(crate::proofs::Laws::Units::unit_beyond))]
pub fn unit_of(c: Channel, unit: usize) -> Unit
    ensures { result ≡ unit_at c unit }
{
    if unit < UNITS {
        c.units[unit]
    } else {
        idle_unit(false)
    }
}

// Whether the unit is declared.
pub fn is_declared(c: Channel, unit: usize) -> bool
    ensures { result ≡ declared_at c unit }
{
    unit_of(c, unit).declared
}

// How the unit stands.
pub fn turn_of(c: Channel, unit: usize) -> Turn
    ensures { result ≡ turn_at c unit }
{
    unit_of(c, unit).turn
}

// Where the unit's reel stands.
pub fn position_of(c: Channel, unit: usize) -> Position
    ensures { result ≡ position_at c unit }
{
    unit_of(c, unit).position
}

// Whether there is no request.
pub fn is_idle(t: Turn) -> bool
    ensures { result ≡ is_idle t }
{
    matches!(t, Turn::Idle)
}

// Whether the unit has an unanswered request.
#[tactic(auto, unfolding(crate::specs::Units::has_request))]
pub fn has_request(c: Channel, unit: usize) -> bool
    ensures { result ≡ has_request c unit }
{
    !is_idle(turn_of(c, unit))
}

// Whether a request of the unit would be accepted.
#[tactic(auto, unfolding(crate::specs::Units::accepts_at))]
pub fn accepts(c: Channel, unit: usize) -> bool
    ensures { result ≡ accepts_at c unit }
{
    let x = unit_of(c, unit);
    x.declared && is_idle(x.turn)
}

// The operation that is worked for, if one is.
pub fn worked_for(t: Turn) -> Option<Op>
    ensures { result ≡ work_of t }
{
    match t {
        Turn::Working(q) => Some(q.op),
        _ => None,
    }
}

// The operation that the unit is worked for, if it is.
#[tactic(auto, unfolding(crate::specs::Units::operation_at))]
pub fn operation_of(c: Channel, unit: usize) -> Option<Op>
    ensures { result ≡ operation_at c unit }
{
    worked_for(turn_of(c, unit))
}

// The channel with another turn and another position at the unit.
#[tactic(auto, unfolding(crate::specs::Units::with_unit), using(crate::proofs::Laws::Units::with_beyond))]
pub fn with_unit(c: Channel, unit: usize, turn: Turn, position: Position) -> Channel
    ensures { result ≡ with_unit c unit turn position }
{
    let mut d = c;
    if unit < UNITS {
        d.units[unit] = Unit {
            turn,
            position,
            ..c.units[unit]
        };
    }
    d
}

// The channel with another turn at the unit.
pub fn with_turn(c: Channel, unit: usize, turn: Turn) -> Channel
    ensures { result ≡ with_turn c unit turn }
{
    with_unit(c, unit, turn, position_of(c, unit))
}
