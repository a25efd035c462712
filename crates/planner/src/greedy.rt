// The planner: each opening takes the lowest free buffers. Nothing of the check is used here.
ghost use Rattle.std.specs.Prelude.{◌≡◌, ◌≤◌, take, set};
ghost use Rattle.area.specs.Lists.{count_of};
ghost use Rattle.planner.specs.Events.{opens};
ghost use Rattle.planner.specs.Walk.{leave, released};
ghost use Rattle.planner.specs.Greedy.{first_free, taken, owners_after, row_of, wants, Made, refusal_of, size_in, rows_in, plan_refusal, plan_size, plan_rows};

use crate::events::{DOUBLE, count_after, file_of, judge, opens};
use crate::{FILES, NoPlan, Proposal};

// The lowest free buffer, or 64 if there is none.
fn first_free(owner: [u8; FILES]) -> u8
    ensures { (result ≡ first_free owner) × (result ≤ 64) }
{
    for i in 0..FILES as u8 {
        if owner[i as usize] == 0 {
            return i;
        }
    }
    FILES as u8
}

// The owners when the lowest free buffer serves v.
fn taken(owner: [u8; FILES], v: u8) -> [u8; FILES]
    ensures { result ≡ taken v owner }
{
    let at = first_free(owner) as usize;
    let mut after = owner;
    if at < FILES {
        after[at] = v;
    }
    after
}

// The owner x of a buffer, or nobody if x is v.
fn unless(x: u8, v: u8) -> u8
    ensures { result ≡ leave v x }
{
    if x == v {
        return 0;
    }
    x
}

// The owners when the buffers of v are free.
fn freed(owner: [u8; FILES], v: u8) -> [u8; FILES]
    ensures { result ≡ released v owner }
{
    let mut after = owner;
    for x in after.iter_mut() {
        *x = unless(*x, v);
    }
    after
}

// The owners after an event.
fn owners_after(owner: [u8; FILES], e: u8) -> [u8; FILES]
    ensures { result ≡ owners_after e owner }
{
    let v = file_of(e) + 1;
    if !opens(e) {
        return freed(owner, v);
    }
    let one = taken(owner, v);
    if e < DOUBLE {
        return one;
    }
    taken(one, v)
}

// The row of an opening.
fn row_of(owner: [u8; FILES], e: u8) -> u32
    ensures { result ≡ row_of e owner }
{
    let file = file_of(e);
    let first = first_free(owner) as u32;
    if e < DOUBLE {
        return 16777216 + (file as u32) * 65536 + first;
    }
    let one = taken(owner, file + 1);
    let second = first_free(one) as u32;
    33554432 + (file as u32) * 65536 + second * 256 + first
}

// The size that an event wants: 0 for a closing.
fn wanted(owner: [u8; FILES], e: u8) -> u8
    ensures { (result ≡ wants e owner) × (result ≤ 65) }
{
    if !opens(e) {
        return 0;
    }
    let first = first_free(owner);
    if e < DOUBLE {
        return first + 1;
    }
    let v = file_of(e) + 1;
    let one = taken(owner, v);
    let second = first_free(one);
    (first + 1).max(second + 1)
}

// The rows with one more at place n, if there is room.
fn with_row(rows: [u32; FILES], n: usize, row: u32) -> [u32; FILES]
    ensures { result ≡ set rows n row }
{
    let mut after = rows;
    if n < FILES {
        after[n] = row;
    }
    after
}

// The proposal for a list of at most 64 openings, whatever the limit.
fn made(events: &[u8]) -> Proposal
    requires { count_of opens events.now ≤ 64 }
    ensures { Made events.now result.size (take result.count result.rows) }
{
    let mut owner = [0u8; FILES];
    let mut rows = [0u32; FILES];
    let mut size: u8 = 1;
    let mut count = 0;
    for e in events {
        size = size.max(wanted(owner, *e));
        let more = with_row(rows, count, row_of(owner, *e));
        rows = more;
        let after = owners_after(owner, *e);
        owner = after;
        count = count_after(count, *e);
    }
    Proposal { size, count, rows }
}

// The smallest pool for a list under a limit, with each opening's buffers.
pub fn plan(limit: u8, events: &[u8]) -> Result<Proposal, NoPlan>
    ensures refusal_value { refusal_of result ≡ plan_refusal limit events.now }
    ensures size_value { (size_in result ≡ plan_size limit events.now) × (rows_in result ≡ plan_rows limit events.now) }
{
    if judge(limit, events).is_err() {
        return Err(NoPlan::BadList);
    }
    let p = made(events);
    if limit < p.size {
        return Err(NoPlan::NoPool);
    }
    Ok(p)
}
