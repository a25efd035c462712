// Which outcomes an operation may have, when a failure is permanent, and document 01's numbers of what a report comes to.
ghost use Rattle.std.specs.Prelude.{◌≡◌, ◌<◌, ◌&&◌, ◌||◌, leb, eqb};
ghost use Rattle.channel_outcomes.specs.Rules.{op_number, incomplete_word, row_of, is_noise, past_noise, next_attempt, good_ending, ending_of, table_verdict, verdict_of, ending_number, repeated_number, result_number, refusal_number};

use crate::positions::cleaner_due;
use crate::{Ending, OUTCOMES, Verdict};
use channel::{Op, Position, Request};

// These two outcomes are failures.
const REDUNDANCY: usize = 1;

const INCOMPLETE_WORD: u8 = 2;

// An outcome that ends the operation at whatever attempt, and one that is not allowed.
const AT_ONCE: u8 = 0;

const NOT_ALLOWED: u8 = 255;

// The attempt of a read that is made in the opposite mode.
const OPPOSITE: u8 = 4;

// The attempts of a read, and of a write or mark.
const READS: u8 = 101;

const WRITES: u8 = 27;

// The noise records that a read passes over, and the words from which on a record is none.
const NOISE: u8 = 100;

const NO_NOISE: u32 = 3;

// The result of a report that repeats the operation, and of one that asks for the cleaner pass first.
const REPEATED: u8 = 0;

const BACKSPACE: u8 = 7;

// The table is to be an array of arrays by value. A row for each operation, by its number, indexed by outcome: the attempt from which on the outcome ends the operation.
const RULES: [[u8; OUTCOMES as usize]; 3] = [
    [AT_ONCE, READS, READS, AT_ONCE, NOT_ALLOWED],
    [AT_ONCE, WRITES, AT_ONCE, NOT_ALLOWED, AT_ONCE],
    [AT_ONCE, WRITES, NOT_ALLOWED, NOT_ALLOWED, AT_ONCE],
];

// The operation's number, which is its row of the table.
fn row(op: Op) -> usize
    ensures { result ≡ op_number op }
{
    op as usize
}

// The attempt at which a failure of the operation is permanent.
#[tactic(auto, using(crate::proofs::Laws::Rules::row_below, crate::proofs::Laws::Rules::limit_redundancy))]
pub fn attempt_limit(op: Op) -> u8
    ensures { result ≡ (row_of op).attempts }
{
    RULES[row(op)][REDUNDANCY]
}

// A good end. A read's attempt 4 was in the opposite mode.
fn good_ending(op: Op, attempt: u8) -> Ending
    ensures { result ≡ good_ending op attempt }
{
    if op == Op::Read && attempt == OPPOSITE {
        Ending::Opposite
    } else {
        Ending::Good
    }
}

// How an operation ends with an outcome that does not repeat it.
#[tactic(auto, unfolding(crate::specs::Rules::ending_of))]
fn ending(op: Op, attempt: u8, outcome: u8) -> Ending
    ensures { result ≡ ending_of op attempt outcome }
{
    match outcome {
        0 => good_ending(op, attempt),
        1 => Ending::LostRedundancy,
        2 => Ending::LostIncomplete,
        3 => Ending::MarkRead,
        _ => Ending::MediumEnd,
    }
}

// The request at its next attempt, after a failure that an operation survives.
#[tactic(auto, unfolding(crate::specs::Rules::next_attempt))]
fn next_attempt(q: Request, outcome: u8) -> Request
    requires { (q.attempts < 255) × (outcome ≡ incomplete_word → q.incomplete < 255) }
    ensures { result ≡ next_attempt q outcome }
{
    Request {
        attempts: q.attempts + 1,
        incomplete: q.incomplete + u8::from(outcome == INCOMPLETE_WORD),
        ..q
    }
}

// Whether an outcome that the operation may have ends it, by the attempt from which on it does. The second incomplete word is permanent.
fn ends(q: Request, outcome: u8, limit: u8) -> bool
    ensures { result ≡ (leb limit q.attempts || (eqb outcome incomplete_word && leb 1 q.incomplete)) }
{
    limit <= q.attempts || (outcome == INCOMPLETE_WORD && 1 <= q.incomplete)
}

// What an outcome means, by the table, for the request that is worked for.
#[tactic(auto, using(crate::proofs::Laws::Rules::row_below))]
fn table_verdict(q: Request, outcome: u8) -> Verdict
    ensures { result ≡ table_verdict q outcome }
{
    if OUTCOMES <= outcome {
        return Verdict::Refused(12);
    }
    let limit = RULES[row(q.op)][outcome as usize];
    if limit == NOT_ALLOWED {
        return Verdict::Refused(12);
    }
    if ends(q, outcome, limit) {
        return Verdict::Ends(ending(q.op, q.attempts, outcome));
    }
    Verdict::Repeats(next_attempt(q, outcome))
}

// How many noise records the operation passes over.
#[tactic(auto, unfolding(crate::specs::Rules::row_of))]
pub fn noise_limit(op: Op) -> u8
    ensures { result ≡ (row_of op).noise }
{
    match op {
        Op::Read => NOISE,
        Op::Write | Op::Mark => 0,
    }
}

// Whether the report is of a noise record, and the request passes over one more.
#[tactic(auto, unfolding(crate::specs::Rules::is_noise))]
fn is_noise(q: Request, outcome: u8, length: u32) -> bool
    ensures { result ≡ is_noise q outcome length }
{
    outcome as usize == REDUNDANCY && length < NO_NOISE && q.noise < noise_limit(q.op)
}

// The request that has passed over one noise record more, at the attempt that it has.
#[tactic(auto, unfolding(crate::specs::Rules::past_noise))]
fn past_noise(q: Request) -> Request
    requires { q.noise < 255 }
    ensures { result ≡ past_noise q }
{
    Request {
        noise: q.noise + 1,
        ..q
    }
}

// What an outcome means for the request that is worked for; `length` is that of the report, in words.
#[tactic(auto, unfolding(crate::specs::Rules::verdict_of))]
pub fn verdict_of(q: Request, outcome: u8, length: u32) -> Verdict
    ensures { result ≡ verdict_of q outcome length }
{
    if is_noise(q, outcome, length) {
        return Verdict::Repeats(past_noise(q));
    }
    table_verdict(q, outcome)
}

fn ending_number(e: Ending) -> u8
    ensures { result ≡ ending_number e }
{
    match e {
        Ending::Good => 1,
        Ending::Opposite => 2,
        Ending::MarkRead => 3,
        Ending::MediumEnd => 4,
        Ending::LostRedundancy => 5,
        Ending::LostIncomplete => 6,
    }
}

// The result of a report that repeats the request q of a unit whose reel stands at p.
#[tactic(auto, unfolding(crate::specs::Rules::repeated_number))]
fn repeated_number(p: Position, q: Request) -> u8
    ensures { result ≡ repeated_number p q }
{
    if cleaner_due(p, q) {
        BACKSPACE
    } else {
        REPEATED
    }
}

// The number of a report's result, where the unit's reel stood at p: 0 repeated, 7 repeated after the cleaner pass, 1 to 6 how the operation ended,
// 0 for a refusal.
pub fn result_number(p: Position, v: Verdict) -> u8
    ensures { result ≡ result_number p v }
{
    match v {
        Verdict::Refused(_) => 0,
        Verdict::Repeats(q) => repeated_number(p, q),
        Verdict::Ends(e) => ending_number(e),
    }
}

// Document 01's number of a report's refusal, 0 for a report that is booked.
pub fn refusal_number(v: Verdict) -> u8
    ensures { result ≡ refusal_number v }
{
    match v {
        Verdict::Refused(n) => n,
        Verdict::Repeats(_) | Verdict::Ends(_) => 0,
    }
}
