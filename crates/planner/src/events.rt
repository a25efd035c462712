// The judgement of a list, which the planner and the check share.
ghost use Rattle.std.specs.Prelude.{◌≡◌, cond, ◌+◌, ◌-◌, ◌^◌, ◌<◌, ◌≤◌};
ghost use Rattle.planner.specs.Events.{limit_fits, opens, file_of, asked, wrong_event, opened_after, judge_of};

use crate::{FILES, ListFault};

// The largest limit, and the most openings that a list has.
const LIMIT: u8 = 64;

const OPENINGS: usize = 64;

// Events: single openings stand below double ones, those below closings, and those below what is no event.
pub const DOUBLE: u8 = 64;

const CLOSE: u8 = 128;

const NONE: u8 = 192;

// Whether an event opens a file.
pub fn opens(e: u8) -> bool
    ensures { result ≡ opens e }
{
    e < CLOSE
}

// The file that an event names.
pub fn file_of(e: u8) -> u8
    ensures { (result ≡ file_of e) × (result < 64) }
{
    e % DOUBLE
}

// How many buffers an opening asks for.
pub fn asked(e: u8) -> u8
    ensures { result ≡ asked e }
{
    if e < DOUBLE {
        return 1;
    }
    2
}

// Whether a limit is one of 1 to 64.
fn limit_fits(limit: u8) -> bool
    ensures { result ≡ limit_fits limit }
{
    (1 <= limit) & (limit <= LIMIT)
}

// Whether an event is wrong where these files are open and n openings came before.
fn wrong_event(opened: [bool; FILES], n: usize, e: u8) -> bool
    ensures { result ≡ wrong_event opened n e }
{
    let file = file_of(e) as usize;
    let open = opened[file];
    if opens(e) {
        return open | (OPENINGS <= n);
    }
    (NONE <= e) | !open
}

// The files that are open after an event.
fn opened_after(opened: [bool; FILES], e: u8) -> [bool; FILES]
    ensures { result ≡ opened_after opened e }
{
    let file = file_of(e) as usize;
    let mut after = opened;
    after[file] = opens(e);
    after
}

// How many openings there are after an event.
pub fn count_after(n: usize, e: u8) -> usize
    requires { n < 2 ^ 64 - 1 }
    ensures { (result ≡ n + cond (opens e) 1 0) × (result ≤ n + 1) }
{
    if e < CLOSE {
        return n + 1;
    }
    n
}

// Whether the list is good: else its first fault.
pub fn judge(limit: u8, events: &[u8]) -> Result<(), ListFault>
    ensures { result ≡ judge_of limit events.now }
{
    if !limit_fits(limit) {
        return Err(ListFault::Limit);
    }
    let mut opened = [false; FILES];
    let mut n = 0;
    for (i, e) in events.iter().enumerate() {
        if wrong_event(opened, n, *e) {
            return Err(ListFault::Event(i));
        }
        let after = opened_after(opened, *e);
        opened = after;
        n = count_after(n, *e);
    }
    Ok(())
}
