// Reports on a channel: what a report comes to, and the channel after it; and the unit that the channel works for.
ghost use Rattle.std.specs.Prelude.{◌≡◌};
ghost use Rattle.channel_turns.specs.Scans.{working_in, unit_number};
ghost use Rattle.channel_turns.specs.Turns.{judge_of, book_of, report_of};

use crate::Reported;
use crate::desks::desk_of;
use crate::moves::{book_move, judge_turn};
use crate::scans::{number_of, work_on};
use crate::starts::moved_to;
use channel::{Channel, turn_of, unit_of};
use channel_outcomes::Verdict;

// What a report of the unit comes to, with an outcome and a length: refused 11 where it is not worked for.
#[tactic(auto, unfolding(crate::specs::Turns::judge_of))]
pub fn judge(c: Channel, unit: usize, outcome: u8, length: u32) -> Verdict
    ensures { result ≡ judge_of c unit outcome length }
{
    judge_turn(turn_of(c, unit), outcome, length)
}

// The channel after what a report of the unit came to.
#[tactic(auto, using(crate::proofs::Laws::Desks::n_books))]
pub fn book(c: Channel, unit: usize, verdict: Verdict, frozen: bool) -> Channel
    ensures { result ≡ book_of c unit verdict frozen }
{
    let m = book_move(unit_of(c, unit), unit, desk_of(c), verdict, frozen);
    moved_to(c, unit, m)
}

// A report of the unit: what it comes to, and the channel after it.
#[tactic(auto, unfolding(crate::specs::Turns::report_of))]
pub fn report(c: Channel, unit: usize, outcome: u8, length: u32, frozen: bool) -> Reported
    ensures { result ≡ report_of c unit outcome length frozen }
{
    let verdict = judge(c, unit, outcome, length);
    Reported {
        verdict,
        channel: book(c, unit, verdict, frozen),
    }
}

// The number of the unit that the channel works for, 255 for none.
#[tactic(auto, using(crate::proofs::Laws::Desks::n_works))]
pub fn working_number(c: Channel) -> u8
    ensures { result ≡ unit_number (working_in c) }
{
    number_of(work_on(desk_of(c)))
}
