// What a report that is booked means for the file of its unit.
ghost use Rattle.std.specs.Prelude.{◌≡◌};
ghost use Rattle.call_request.specs.Effects.{kept_if, read_effect, write_effect, work_effect, effect_of, is_delivery};
ghost use Rattle.call_request.specs.Report.{takes_no_words};

use crate::Effect;
use channel::Op;
use channel_outcomes::{Ending, Verdict};
use file::{INCOMPLETE_ERROR, REDUNDANCY_ERROR};

// A read that ends with this permanent error keeps the block if the report carries words.
fn kept_if(some: bool, error: u8) -> Effect
    ensures { result ≡ kept_if some error }
{
    if some {
        Effect::Delivers(error)
    } else {
        Effect::GivesBack
    }
}

// The end of a read, by whether the report carries words.
fn read_effect(some: bool, e: Ending) -> Effect
    ensures { result ≡ read_effect some e }
{
    match e {
        Ending::Good | Ending::Opposite => Effect::Delivers(0),
        Ending::MarkRead => Effect::MeetsMark,
        Ending::MediumEnd => Effect::GivesBack,
        Ending::LostRedundancy => kept_if(some, REDUNDANCY_ERROR),
        Ending::LostIncomplete => kept_if(some, INCOMPLETE_ERROR),
    }
}

// The end of a write.
fn write_effect(e: Ending) -> Effect
    ensures { result ≡ write_effect e }
{
    match e {
        Ending::Good | Ending::MediumEnd => Effect::Sends,
        Ending::Opposite | Ending::MarkRead | Ending::LostRedundancy | Ending::LostIncomplete =>
            Effect::Keeps,
    }
}

fn work_effect(some: bool, x: Option<Op>, e: Ending) -> Effect
    ensures { result ≡ work_effect some x e }
{
    match x {
        Some(Op::Read) => read_effect(some, e),
        Some(Op::Write) => write_effect(e),
        Some(Op::Mark) | None => Effect::Keeps,
    }
}

// What a report of the operation that is worked for means, by whether it carries words and what it came to.
pub fn effect_of(some: bool, x: Option<Op>, v: Verdict) -> Effect
    ensures { result ≡ effect_of some x v }
{
    match v {
        Verdict::Refused(_) | Verdict::Repeats(_) => Effect::Keeps,
        Verdict::Ends(e) => work_effect(some, x, e),
    }
}

pub fn is_delivery(x: Effect) -> bool
    ensures { result ≡ is_delivery x }
{
    matches!(x, Effect::Delivers(_))
}

// Whether a write or a mark is worked for, to which no words may be given.
pub fn takes_no_words(x: Option<Op>) -> bool
    ensures { result ≡ takes_no_words x }
{
    matches!(x, Some(Op::Write | Op::Mark))
}
