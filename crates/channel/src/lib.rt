// One channel as a value: its units with their requests, and what can be seen of them.
// Every function answers for any channel value and any number. What a report comes to stands in `channel_outcomes`, whose turn it is in `channel_turns`.
// The crate knows nothing of files, buffers or words.
#![tactic(auto)]

mod units;

ghost use Rattle.channel.specs.Ops.{op_numbered};
ghost use Rattle.std.specs.Prelude.{◌≡◌};

pub use units::{
    accepts, fresh, has_request, is_declared, is_idle, operation_of, position_of, turn_of, unit_of,
    with_turn, with_unit, worked_for,
};

// How many units a channel has.
pub const UNITS: usize = 10;

// How many channels there are, the manual's A to E.
pub const CHANNELS: usize = 5;

// What a request asks for. `op as u8` is its number: 0 read, 1 write, 2 mark.
#[derive(Clone, Copy, Debug, PartialEq, Eq)]
pub enum Op {
    Read,
    Write,
    Mark,
}

// A number that is no operation's.
#[derive(Clone, Copy, Debug, PartialEq, Eq)]
pub struct UnknownOp;

impl TryFrom<u8> for Op {
    type Error = UnknownOp;

    ghost try_from_gives = { λ number r. r ≡ op_numbered number };

    fn try_from(number: u8) -> Result<Op, UnknownOp> {
        match number {
            0 => Ok(Op::Read),
            1 => Ok(Op::Write),
            2 => Ok(Op::Mark),
            _ => Err(UnknownOp),
        }
    }
}

// A request. `attempts` is the number of the attempt that is at work or due, `incomplete` how many incomplete words it met, `noise` how many
// noise records it passed over.
#[derive(Clone, Copy)]
pub struct Request {
    pub op: Op,
    pub priority: bool,
    pub attempts: u8,
    pub incomplete: u8,
    pub noise: u8,
}

// How a unit stands: it has no request, or its request waits, was displaced, or is worked for.
#[derive(Clone, Copy)]
pub enum Turn {
    Idle,
    Waiting(Request),
    Displaced(Request),
    Working(Request),
}

// Where a unit's reel stands since the fresh start: the file marks passed, the records since the last of them, and whether a noise record was met.
#[derive(Clone, Copy)]
pub struct Position {
    pub marks: u16,
    pub records: u16,
    pub noisy: bool,
}

#[derive(Clone, Copy)]
pub struct Unit {
    pub declared: bool,
    pub turn: Turn,
    pub position: Position,
}

// `mark` is the unit at which the next scan for ordinary requests begins, `urgent` that of the next scan for priority requests.
#[derive(Clone, Copy)]
pub struct Channel {
    pub units: [Unit; UNITS],
    pub mark: u8,
    pub urgent: u8,
}
