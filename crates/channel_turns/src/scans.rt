// How a unit stands to the scans, and the scans of a channel's desk: which unit comes first of those that are worked for, that wait with a priority request
// and that wait with an ordinary one.
ghost use Rattle.std.specs.Prelude.{◌≡◌, ◌<◌, eqb, unwrap_or};
ghost use Rattle.channel.specs.Units.{unit_count};
ghost use Rattle.channel_turns.specs.Standings.{standing_number};
ghost use Rattle.channel_turns.specs.Scans.{waiting_as, standing_of, next_unit, begin_of, unit_number};
ghost use Rattle.channel_turns.specs.Desks.{scan_of, work_on, urged_on, next_on};

use crate::{Desk, LAST};
use channel::{Turn, UNITS};

// The number stands in public answers, as `Move::working`, which the crates above pass on as a byte: so it is no `Option`.
const NO_UNIT: u8 = 255;

// How a unit stands to the scans: its request waits, displaced or not, and is ordinary or priority, or it is worked for.
#[derive(Clone, Copy, PartialEq, Eq)]
pub enum Standing {
    Idle,
    Ordinary,
    Priority,
    Working,
}

pub fn waiting_as(priority: bool) -> Standing
    ensures { standing_number result ≡ waiting_as priority }
{
    if priority {
        Standing::Priority
    } else {
        Standing::Ordinary
    }
}

pub fn standing_of(t: Turn) -> Standing
    ensures { standing_number result ≡ standing_of t }
{
    match t {
        Turn::Idle => Standing::Idle,
        Turn::Waiting(q) | Turn::Displaced(q) => waiting_as(q.priority),
        Turn::Working(_) => Standing::Working,
    }
}

// Whether a unit of that turn stands so.
pub fn stands(t: Turn, want: Standing) -> bool
    ensures { result ≡ eqb (standing_of t) (standing_number want) }
{
    standing_of(t) == want
}

// The number of the next unit, which wraps after the last.
#[tactic(auto, using(crate::proofs::Laws::Scans::next_up, crate::proofs::Laws::Scans::next_wraps))]
pub fn next_unit(unit: usize) -> usize
    ensures { result ≡ next_unit unit_count unit }
{
    if unit < LAST { unit + 1 } else { 0 }
}

// Where a scan from this mark begins.
#[tactic(auto, using(crate::proofs::Laws::Scans::begin_here, crate::proofs::Laws::Scans::begin_zero))]
fn begin(mark: u8) -> usize
    ensures { result ≡ begin_of unit_count mark }
{
    let at = mark as usize;
    if at < UNITS { at } else { 0 }
}

// The first unit whose bit is set, of all of them from a mark on, wrapped after the last.
fn scan(mask: u16, mark: u8) -> Option<usize>
    ensures { (result ≡ scan_of unit_count mask mark) × (unwrap_or result 0 < unit_count) }
{
    if mask == 0 {
        return None;
    }
    let mut at = begin(mark);
    let mut left: usize = UNITS;
    // The scan is to be a loop over wrapped unit numbers that yields the first one that waits by `break`.
    loop {
        if left == 0 {
            break None;
        }
        if (mask >> at) % 2 == 1 {
            break Some(at);
        }
        at = next_unit(at);
        left -= 1;
    }
}

// The unit that the channel works for.
#[tactic(auto, unfolding(crate::specs::Desks::work_on))]
pub fn work_on(d: Desk) -> Option<usize>
    ensures { (result ≡ work_on unit_count d) × (unwrap_or result 0 < unit_count) }
{
    scan(d.working, 0)
}

// The first unit, from the channel's mark for them on, whose priority request waits.
#[tactic(auto, unfolding(crate::specs::Desks::urged_on))]
pub fn urged_on(d: Desk) -> Option<usize>
    ensures { (result ≡ urged_on unit_count d) × (unwrap_or result 0 < unit_count) }
{
    scan(d.priority, d.urgent)
}

// Whose turn it is on an idle channel: the first with a priority request, else the first, from the channel's mark for them on, with an ordinary one.
#[tactic(auto, unfolding(crate::specs::Desks::next_on))]
pub fn next_on(d: Desk) -> Option<usize>
    ensures { (result ≡ next_on unit_count d) × (unwrap_or result 0 < unit_count) }
{
    match urged_on(d) {
        Some(u) => Some(u),
        None => scan(d.ordinary, d.mark),
    }
}

// The number of the unit that was found, 255 for none.
pub fn number_of(x: Option<usize>) -> u8
    requires { unwrap_or x 0 < unit_count }
    ensures { result ≡ unit_number x }
{
    match x {
        Some(u) => u as u8,
        None => NO_UNIT,
    }
}
