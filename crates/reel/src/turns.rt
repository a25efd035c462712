// Calls of the pack in turn.
ghost use Rattle.std.specs.Prelude.{◌≡◌};
ghost use Rattle.pack.specs.Answers.{answer_by, call_of};
ghost use Rattle.reel.specs.Steps.{in_turn, ended_by};

use pack::{AnyAnswer, AnyCall, NO_LENGTH, State, no_naming};

// The answer of the second of two calls, which is given the state and the area that the first left.
pub fn in_turn(
    s: State,
    area: &mut [u64],
    first: AnyCall,
    second: AnyCall,
    words: &[u64],
) -> AnyAnswer
    ensures { answer_by result area.new ≡ in_turn s area.old (call_of first words.now) (call_of second words.now) }
{
    let x = pack::answer(s, area, first, words);
    pack::answer(x.state, area, second, words)
}

// The operations of an ask, and the outcomes of a report, by the numbers of the pack's calls.
pub const READ: u8 = 0;

pub const WRITE: u8 = 1;

pub const MARK: u8 = 2;

pub const GOOD: u8 = 0;

pub const FILE_MARK: u8 = 3;

// An operation that is asked for, with no routine, and then reported with an outcome, and with words where it brings a block. Where the ask is refused, the
// report is given the state as it was.
pub fn ended(s: State, area: &mut [u64], op: u8, outcome: u8, words: &[u64]) -> AnyAnswer
    ensures { answer_by result area.new ≡ ended_by s area.old op outcome words.now }
{
    let ask = AnyCall::Ask {
        file: 0,
        op,
        priority: 0,
        naming: no_naming(),
    };
    let report = AnyCall::Report {
        channel: 0,
        unit: 0,
        outcome,
        length: NO_LENGTH,
    };
    in_turn(s, area, ask, report, words)
}
