// Where a unit's reel stands after a report, and when the cleaner pass is due.
ghost use Rattle.std.specs.Prelude.{◌≡◌};
ghost use Rattle.channel_outcomes.specs.Positions.{one_more, record_passed, mark_passed, read_moves, write_moves, mark_moves, op_moves, position_after, noise_met, noted_by, reads as readsTape, is_pass, cleaner_due};

use crate::{Ending, MOST_PASSED};
use channel::{Op, Position, Request};

// The first and the last attempt of a read before which the reel is cleaned, and how far apart they are.
const FIRST_PASS: u8 = 12;

const LAST_PASS: u8 = 92;

const PASSES: u8 = 10;

// The records that must stand since the mark.
const PASS_RECORDS: u16 = 3;

// One more, held at the most.
fn one_more(n: u16) -> u16
    ensures { result ≡ one_more n }
{
    if n < MOST_PASSED { n + 1 } else { MOST_PASSED }
}

// One record more since the mark.
#[tactic(auto, unfolding(crate::specs::Positions::record_passed))]
fn record_passed(p: Position) -> Position
    ensures { result ≡ record_passed p }
{
    Position {
        records: one_more(p.records),
        ..p
    }
}

// One mark more, and no record since.
#[tactic(auto, unfolding(crate::specs::Positions::mark_passed))]
fn mark_passed(p: Position) -> Position
    ensures { result ≡ mark_passed p }
{
    Position {
        marks: one_more(p.marks),
        records: 0,
        ..p
    }
}

// After the end of a read.
fn read_moves(e: Ending, p: Position) -> Position
    ensures { result ≡ read_moves e p }
{
    match e {
        Ending::Good | Ending::Opposite => record_passed(p),
        Ending::MarkRead => mark_passed(p),
        _ => p,
    }
}

// After the end of a write.
fn write_moves(e: Ending, p: Position) -> Position
    ensures { result ≡ write_moves e p }
{
    match e {
        Ending::Good | Ending::MediumEnd => record_passed(p),
        _ => p,
    }
}

// After the end of a mark.
fn mark_moves(e: Ending, p: Position) -> Position
    ensures { result ≡ mark_moves e p }
{
    match e {
        Ending::Good | Ending::MediumEnd => mark_passed(p),
        _ => p,
    }
}

fn op_moves(op: Op, e: Ending, p: Position) -> Position
    ensures { result ≡ op_moves op e p }
{
    match op {
        Op::Read => read_moves(e, p),
        Op::Write => write_moves(e, p),
        Op::Mark => mark_moves(e, p),
    }
}

// Where the reel stands after the end of what was worked for.
pub fn position_after(x: Option<Op>, e: Ending, p: Position) -> Position
    ensures { result ≡ position_after x e p }
{
    match x {
        Some(op) => op_moves(op, e, p),
        None => p,
    }
}

// Whether a noise record was met: before, or by the request.
fn noise_met(p: Position, q: Request) -> bool
    ensures { result ≡ noise_met p q }
{
    p.noisy || 0 < q.noise
}

// Where the reel stands while the request is repeated: no further, and a noise record that the request met is noted.
#[tactic(auto, unfolding(crate::specs::Positions::noted_by))]
pub fn noted(p: Position, q: Request) -> Position
    ensures { result ≡ noted_by p q }
{
    Position {
        noisy: noise_met(p, q),
        ..p
    }
}

// Whether the reel is cleaned before this attempt of a read.
fn is_pass(attempt: u8) -> bool
    ensures { result ≡ is_pass attempt }
{
    (FIRST_PASS..=LAST_PASS).contains(&attempt) && attempt % PASSES == 2
}

// Whether the cleaner pass comes before the next attempt of the request.
#[tactic(auto, unfolding(crate::specs::Positions::cleaner_due))]
pub fn cleaner_due(p: Position, q: Request) -> bool
    ensures { result ≡ cleaner_due p q }
{
    q.op == Op::Read && is_pass(q.attempts) && PASS_RECORDS <= p.records && !noise_met(p, q)
}
