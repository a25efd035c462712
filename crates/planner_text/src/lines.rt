// Whole texts, line by line.
ghost use Rattle.std.specs.Prelude.{◌≡◌, map, ◌≤◌, ◌<◌, length, take, drop};
ghost use Rattle.session_line.specs.Lines.{lines_of};
ghost use Rattle.planner_text.specs.Fields.{rest_to};
ghost use Rattle.planner_text.specs.Texts.{event_of, row_of, limit_of, size_of, first_line, events_in, rows_in};

use crate::fields::{event_of, first, limit_of, row_of, size_of, up_to};
use crate::{ListRead, ProposalRead};

// The line feed.
const FEED: u8 = 10;

// The place after the line that begins at `at`, and its line feed.
fn after_line(text: &[u8], at: usize) -> usize
    requires { at < length text.now }
    ensures { (drop result text.now ≡ rest_to 10 (drop at text.now)) × (at < result) × (result ≤ length text.now) }
{
    let left = &text[at..];
    let n = up_to(left, FEED);
    if n < left.len() {
        return at + n + 1;
    }
    text.len()
}

// Reads the lines from `at` on as events into the room, as many as it takes. Gives their count.
fn read_events(text: &[u8], at: usize, events: &mut [u8]) -> usize
    requires { at ≤ length text.now }
    ensures events_after { take result events.new ≡ take (length events.old) (map event_of (lines_of (drop at text.now))) }
    ensures upper_bound { (result ≤ length events.old) × (length events.new ≡ length events.old) }
{
    let mut i = at;
    for n in 0..events.len() {
        if text.len() <= i {
            return n;
        }
        let left = &text[i..];
        events[n] = event_of(first(left, FEED));
        i = after_line(text, i);
    }
    events.len()
}

// The same as rows of a proposal. It stays beside `read_events`: one function for both would take what a line says as a closure and again as a definition.
fn read_rows(text: &[u8], at: usize, rows: &mut [u32]) -> usize
    requires { at ≤ length text.now }
    ensures rows_after { take result rows.new ≡ take (length rows.old) (map row_of (lines_of (drop at text.now))) }
    ensures upper_bound { (result ≤ length rows.old) × (length rows.new ≡ length rows.old) }
{
    let mut i = at;
    for n in 0..rows.len() {
        if text.len() <= i {
            return n;
        }
        let left = &text[i..];
        rows[n] = row_of(first(left, FEED));
        i = after_line(text, i);
    }
    rows.len()
}

// The place after the first line: the end, if there is none.
fn after_first(text: &[u8]) -> usize
    ensures { (lines_of (drop result text.now) ≡ drop 1 (lines_of text.now)) × (result ≤ length text.now) }
{
    if text.len() == 0 {
        return 0;
    }
    after_line(text, 0)
}

// Reads a list: the limit of its first line, and an event for each line after it, as many as the room takes.
pub fn read_list(text: &[u8], events: &mut [u8]) -> ListRead
    ensures limit_value { result.limit ≡ limit_of (first_line text.now) }
    ensures events_after { take result.count events.new ≡ events_in (length events.old) text.now }
    ensures count_in_bounds { (result.count ≤ length events.old) × (length events.new ≡ length events.old) }
{
    let limit = limit_of(first(text, FEED));
    let at = after_first(text);
    let count = read_events(text, at, events);
    ListRead { limit, count }
}

// Reads a proposal: the size of its first line, and a row for each line after it, as many as the room takes.
pub fn read_proposal(text: &[u8], rows: &mut [u32]) -> ProposalRead
    ensures size_value { result.size ≡ size_of (first_line text.now) }
    ensures rows_after { take result.count rows.new ≡ rows_in (length rows.old) text.now }
    ensures count_in_bounds { (result.count ≤ length rows.old) × (length rows.new ≡ length rows.old) }
{
    let size = size_of(first(text, FEED));
    let at = after_first(text);
    let count = read_rows(text, at, rows);
    ProposalRead { size, count }
}
