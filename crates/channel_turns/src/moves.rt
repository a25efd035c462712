// What a call makes of one unit and its channel's desk: how the unit stands after it, the marks, which unit starts, and which is worked for then.
ghost use Rattle.std.specs.Prelude.{◌≡◌};
ghost use Rattle.channel.specs.Units.{unit_count};
ghost use Rattle.channel_turns.specs.Starts.{new_request};
ghost use Rattle.channel_turns.specs.Turns.{judge_turn, incomplete_turn, is_ordinary, holds_priority, mark_moved};
ghost use Rattle.channel_turns.specs.Desks.{starts_on, works_after, moved_on, still_on, goes_on_at, ask_move, repeat_move, end_move, book_move};

use crate::desks::seated;
use crate::scans::{
    Standing, next_on, next_unit, number_of, standing_of, urged_on, waiting_as, work_on,
};
use crate::{Desk, Move};
use channel::{Op, Position, Request, Turn, Unit, is_idle, worked_for};
use channel_outcomes::{Ending, Verdict, noted, position_after, verdict_of};

// The unit that starts, and the number of the one that is worked for then, 255 for none.
#[derive(Clone, Copy)]
pub struct Starting {
    pub unit: Option<usize>,
    pub working: u8,
}

// The start by a desk: a channel that is idle and not frozen works for the request whose turn it is, if any waits.
#[tactic(auto, unfolding(crate::specs::Desks::starts_on, crate::specs::Desks::works_after))]
pub fn start_on(d: Desk, frozen: bool) -> Starting
    ensures { (result.unit ≡ starts_on unit_count d frozen) × (result.working ≡ works_after unit_count d frozen) }
{
    let works = work_on(d);
    if frozen || works.is_some() {
        return Starting {
            unit: None,
            working: number_of(works),
        };
    }
    let unit = next_on(d);
    Starting {
        unit,
        working: number_of(unit),
    }
}

// The unit stands so, and the channel goes on by the desk that this makes.
#[tactic(auto, unfolding(crate::specs::Desks::moved_on))]
fn moved(turn: Turn, position: Position, d: Desk, frozen: bool) -> Move
    ensures { result ≡ moved_on unit_count turn position d frozen }
{
    let s = start_on(d, frozen);
    Move {
        turn,
        position,
        mark: d.mark,
        urgent: d.urgent,
        starts: s.unit,
        working: s.working,
    }
}

// Nothing changes, and nothing starts.
#[tactic(auto, unfolding(crate::specs::Desks::still_on))]
fn still(x: Unit, d: Desk) -> Move
    ensures { result ≡ still_on unit_count x d }
{
    Move {
        turn: x.turn,
        position: x.position,
        mark: d.mark,
        urgent: d.urgent,
        starts: None,
        working: number_of(work_on(d)),
    }
}

fn new_request(op: Op, priority: bool) -> Request
    ensures { result ≡ new_request op priority }
{
    Request {
        op,
        priority,
        attempts: 1,
        incomplete: 0,
        noise: 0,
    }
}

// A request of the unit u, accepted if it is declared and has none.
#[tactic(auto, unfolding(crate::specs::Desks::ask_move))]
pub fn ask_move(x: Unit, u: usize, d: Desk, op: Op, priority: bool, frozen: bool) -> Move
    ensures { result ≡ ask_move unit_count x u d op priority frozen }
{
    if x.declared && is_idle(x.turn) {
        let turn = Turn::Waiting(new_request(op, priority));
        let after = seated(d, u, waiting_as(priority));
        return moved(turn, x.position, after, frozen);
    }
    still(x, d)
}

// Whether an incomplete operation goes on at once.
fn goes_on(d: Desk, priority: bool, frozen: bool) -> bool
    ensures { result ≡ goes_on_at unit_count d priority frozen }
{
    !frozen && (priority || !urged_on(d).is_some())
}

fn incomplete_turn(on: bool, q: Request) -> Turn
    ensures { result ≡ incomplete_turn on q }
{
    if on {
        Turn::Working(q)
    } else {
        Turn::Displaced(q)
    }
}

// The unit's operation is to go on: it makes a further attempt, or has passed over a noise record.
#[tactic(auto, unfolding(crate::specs::Desks::repeat_move))]
fn repeat_move(x: Unit, u: usize, d: Desk, q: Request, frozen: bool) -> Move
    ensures { result ≡ repeat_move unit_count x u d q frozen }
{
    let turn = incomplete_turn(goes_on(d, q.priority, frozen), q);
    let after = seated(d, u, standing_of(turn));
    moved(turn, noted(x.position, q), after, frozen)
}

fn is_ordinary(t: Turn) -> bool
    ensures { result ≡ is_ordinary t }
{
    match t {
        Turn::Idle => false,
        Turn::Waiting(q) | Turn::Displaced(q) | Turn::Working(q) => !q.priority,
    }
}

fn holds_priority(t: Turn) -> bool
    ensures { result ≡ holds_priority t }
{
    match t {
        Turn::Idle => false,
        Turn::Waiting(q) | Turn::Displaced(q) | Turn::Working(q) => q.priority,
    }
}

// Where a scan begins once the unit's operation has ended: above it, if the operation is of the mark's own kind.
#[tactic(auto, using(crate::proofs::Laws::Scans::next_below))]
fn mark_moved(own: bool, unit: usize, mark: u8) -> u8
    ensures { result ≡ mark_moved own unit_count unit mark }
{
    if own { next_unit(unit) as u8 } else { mark }
}

// The unit's operation has ended, and its reel stands where that leaves it.
#[tactic(auto, unfolding(crate::specs::Desks::end_move))]
fn end_move(x: Unit, u: usize, d: Desk, e: Ending, frozen: bool) -> Move
    ensures { result ≡ end_move unit_count x u d e frozen }
{
    let position = position_after(worked_for(x.turn), e, x.position);
    let after = Desk {
        mark: mark_moved(is_ordinary(x.turn), u, d.mark),
        urgent: mark_moved(holds_priority(x.turn), u, d.urgent),
        ..seated(d, u, Standing::Idle)
    };
    moved(Turn::Idle, position, after, frozen)
}

// What a report of the unit came to, booked.
#[tactic(auto, unfolding(crate::specs::Desks::book_move))]
pub fn book_move(x: Unit, u: usize, d: Desk, verdict: Verdict, frozen: bool) -> Move
    ensures { result ≡ book_move unit_count x u d verdict frozen }
{
    match verdict {
        Verdict::Refused(_) => still(x, d),
        Verdict::Repeats(q) => repeat_move(x, u, d, q, frozen),
        Verdict::Ends(e) => end_move(x, u, d, e, frozen),
    }
}

// What a report of a unit that stands so comes to, with an outcome and a length: refused 11 where it is not worked for.
pub fn judge_turn(t: Turn, outcome: u8, length: u32) -> Verdict
    ensures { result ≡ judge_turn t outcome length }
{
    match t {
        Turn::Working(q) => verdict_of(q, outcome, length),
        _ => Verdict::Refused(11),
    }
}
