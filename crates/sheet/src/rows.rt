// The requests of a sheet, followed from event to event.
ghost use Rattle.std.specs.Prelude.{◌≡◌, cond, map, set};
ghost use Rattle.sheet.specs.Rows.{next, no_row, none_listed, new_row, row_after, row_in, listed_after};

use crate::{Event, LISTED, Listed, Row};

// One more, up to the most that 64 bits hold.
pub fn next_number(n: u64) -> u64
    ensures { result ≡ next n }
{
    if n < u64::MAX {
        return n + 1;
    }
    n
}

// One of two numbers.
pub fn pick(first: bool, a: u64, b: u64) -> u64
    ensures { result ≡ cond first a b }
{
    if first {
        return a;
    }
    b
}

// The row that stands where none is listed.
fn no_row() -> Row
    ensures { result ≡ no_row }
{
    Row {
        file: 0,
        channel: 0,
        unit: 0,
        asked: 0,
        answered: 0,
        reports: 0,
        live: false,
    }
}

// No request is listed.
pub fn none_listed() -> Listed
    ensures { result ≡ none_listed }
{
    Listed {
        rows: [no_row(); LISTED],
        count: 0,
        more: false,
    }
}

// The request that the event of frame k is.
fn new_row(e: Event, k: u64) -> Row
    ensures { result ≡ new_row e k }
{
    Row {
        file: e.file,
        channel: e.channel,
        unit: e.unit,
        asked: k,
        answered: 0,
        reports: 0,
        live: true,
    }
}

// A request after the event of frame k.
fn row_after(row: Row, e: Event, k: u64) -> Row
    ensures { result ≡ row_after e k row }
{
    let counts = row.live & e.reported & (row.channel == e.channel);
    let ends = counts & (row.unit == e.unit) & e.answered;
    let more = next_number(row.reports);
    let answered = pick(ends, k, row.answered);
    let reports = pick(counts, more, row.reports);
    Row {
        answered,
        reports,
        live: row.live & !ends & !e.started,
        ..row
    }
}

// All requests after the event of frame k.
fn rows_after(given: [Row; LISTED], e: Event, k: u64) -> [Row; LISTED]
    ensures { result ≡ map (row_after e k) given }
{
    let mut rows = given;
    for i in 0..LISTED {
        rows[i] = row_after(rows[i], e, k);
    }
    rows
}

// The rows with another in place i; unchanged past the last.
fn row_in(given: [Row; LISTED], i: usize, row: Row) -> [Row; LISTED]
    ensures { result ≡ row_in given i row }
{
    if LISTED <= i {
        return given;
    }
    let mut rows = given;
    rows[i] = row;
    rows
}

// The requests after the event of frame k: those listed go on, and a new one is listed if there is room.
pub fn listed_after(l: Listed, e: Event, k: u64) -> Listed
    ensures { result ≡ listed_after e k l }
{
    let rows = rows_after(l.rows, e, k);
    if !e.asked {
        return Listed { rows, ..l };
    }
    if LISTED <= l.count {
        return Listed {
            rows,
            more: true,
            ..l
        };
    }
    Listed {
        rows: row_in(rows, l.count, new_row(e, k)),
        count: l.count + 1,
        ..l
    }
}
