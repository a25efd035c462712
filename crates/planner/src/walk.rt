// The check of a proposal, event by event: which file each of the 64 buffers serves. Nothing of the planner is used here.
ghost use Rattle.std.specs.Prelude.{◌≡◌, [], ◌∷◌, drop, set};
ghost use Rattle.planner.specs.Rows.{buffers_of};
ghost use Rattle.planner.specs.Walk.{is_free, leave, released, claimed, buffers_fault, row_fault, event_fault, owners_next, nobody, check_from, check_of};

use crate::events::{asked, count_after, file_of, judge, opens};
use crate::{FILES, Fault, Rejection};

// Whether a buffer serves nobody.
fn is_free(owner: [u8; FILES], b: u8) -> bool
    ensures { result ≡ is_free owner b }
{
    let at = b as usize;
    if at < FILES {
        return owner[at] == 0;
    }
    true
}

// Whether one buffer can serve an opening: else it is outside the size, or serves another file.
fn single_fault(size: u8, owner: [u8; FILES], b: u8) -> Result<(), Fault>
    ensures { result ≡ buffers_fault size owner (b ∷ []) }
{
    if size <= b {
        return Err(Fault::Outside);
    }
    if is_free(owner, b) {
        return Ok(());
    }
    Err(Fault::Shared)
}

// Whether two buffers can serve an opening: else one is outside the size, they are the same, or one serves another file.
fn pair_fault(size: u8, owner: [u8; FILES], b: u8, c: u8) -> Result<(), Fault>
    ensures { result ≡ buffers_fault size owner (c ∷ b ∷ []) }
{
    if (size <= b) | (size <= c) {
        return Err(Fault::Outside);
    }
    if c == b {
        return Err(Fault::Twice);
    }
    let one = is_free(owner, b);
    let other = is_free(owner, c);
    if one & other {
        return Ok(());
    }
    Err(Fault::Shared)
}

// Whether a row can serve an opening: else it names another file or another count of buffers, or something is wrong with its buffers.
fn row_fault(size: u8, owner: [u8; FILES], e: u8, row: u32) -> Result<(), Fault>
    ensures { result ≡ row_fault size owner e row }
{
    let file = (row / 65536 % 256) as u8;
    if file != file_of(e) {
        return Err(Fault::OtherFile);
    }
    let count = row / 16777216;
    if count != (asked(e) as u32) {
        return Err(Fault::OtherCount);
    }
    let first = (row % 256) as u8;
    if count == 1 {
        return single_fault(size, owner, first);
    }
    let second = (row / 256 % 256) as u8;
    pair_fault(size, owner, first, second)
}

// The owners when a buffer serves v.
fn with_owner(owner: [u8; FILES], b: u8, v: u8) -> [u8; FILES]
    ensures { result ≡ set owner b v }
{
    let at = b as usize;
    let mut after = owner;
    if at < FILES {
        after[at] = v;
    }
    after
}

// The owners when the buffers of a row serve v.
fn claim(owner: [u8; FILES], v: u8, row: u32) -> [u8; FILES]
    ensures { result ≡ claimed v (buffers_of row) owner }
{
    let count = row / 16777216;
    let first = (row % 256) as u8;
    if count == 1 {
        return with_owner(owner, first, v);
    }
    if count == 2 {
        let second = (row / 256 % 256) as u8;
        let one = with_owner(owner, first, v);
        return with_owner(one, second, v);
    }
    owner
}

// Whom a buffer serves when v closes that serves x now.
fn left_by(v: u8, x: u8) -> u8
    ensures { result ≡ leave v x }
{
    if x == v {
        return 0;
    }
    x
}

// The owners when the buffers of v are free.
fn release(owner: [u8; FILES], v: u8) -> [u8; FILES]
    ensures { result ≡ released v owner }
{
    let mut after = owner;
    for x in after.iter_mut() {
        *x = left_by(v, *x);
    }
    after
}

// Whether an event can be: else the next row, row n, cannot serve its opening, or there is none.
fn event_fault(size: u8, owner: [u8; FILES], e: u8, rows: &[u32], n: usize) -> Result<(), Fault>
    ensures { result ≡ event_fault size owner e (drop n rows.now) }
{
    if !opens(e) {
        return Ok(());
    }
    if rows.len() <= n {
        return Err(Fault::Openings);
    }
    row_fault(size, owner, e, rows[n])
}

// The owners after an event, an opening by row n.
fn owners_next(owner: [u8; FILES], e: u8, rows: &[u32], n: usize) -> [u8; FILES]
    ensures { result ≡ owners_next e (drop n rows.now) owner }
{
    let v = file_of(e) + 1;
    if !opens(e) {
        return release(owner, v);
    }
    if rows.len() <= n {
        return claim(owner, v, 0);
    }
    claim(owner, v, rows[n])
}

// What the events and rows come to, where no file is open at first.
fn check_from(events: &[u8], size: u8, rows: &[u32]) -> Result<(), Rejection>
    ensures { result ≡ check_from size nobody 0 events.now rows.now }
{
    let mut owner = [0u8; FILES];
    let mut n = 0;
    for e in events {
        if let Err(fault) = event_fault(size, owner, *e, rows, n) {
            return Err(Rejection::Row(fault, n));
        }
        let after = owners_next(owner, *e, rows, n);
        owner = after;
        n = count_after(n, *e);
    }
    if n < rows.len() {
        return Err(Rejection::Row(Fault::Openings, n));
    }
    Ok(())
}

// Whether a proposal, a size and rows, is accepted for a list under a limit.
pub fn check(limit: u8, events: &[u8], size: u8, rows: &[u32]) -> Result<(), Rejection>
    ensures { result ≡ check_of limit events.now size rows.now }
{
    if judge(limit, events).is_err() {
        return Err(Rejection::BadList);
    }
    if (1 <= size) & (size <= limit) {
        return check_from(events, size, rows);
    }
    Err(Rejection::Size)
}
