// One line more out of a part of a session.
ghost use Rattle.std.specs.Prelude.{◌≡◌, ◌+◌, ◌-◌, ◌≤◌, max, length, take, drop};
ghost use Rattle.session_line.specs.Lines.{feed_at, feedless};
ghost use Rattle.session_line.specs.Machine.{no_line, has_begun, step_of, room_of};

use crate::grow::grown;
use crate::{Line, Step};

// The line of which nothing has come.
pub fn no_line() -> Line
    ensures { result ≡ no_line }
{
    Line {
        filled: 0,
        overlong: false,
    }
}

// Whether something of a line has come. At the end of a session what has come is the last line.
pub fn has_begun(line: Line) -> bool
    ensures { result ≡ has_begun line }
{
    line.overlong | (line.filled != 0)
}

// How many bytes are passed over together where no line feed is among them.
const STRIDE: usize = 16;

// Whether no line feed is among the bytes. It looks at all of them without a branch, which a processor does many at a time.
fn is_feedless(piece: &[u8]) -> bool
    ensures { result ≡ feedless piece.now }
{
    let mut all = true;
    for c in piece {
        all &= *c != b'\n';
    }
    all
}

// A place from `at` on, up to which there is no line feed: less than a stride before the next, or before the end.
fn feedless_from(bytes: &[u8], at: usize) -> usize
    ensures { (at + feed_at (drop at bytes.now) ≡ result + feed_at (drop result bytes.now)) × (at ≤ result) × (result ≤ max at (length bytes.now)) }
{
    let strides = bytes.len().saturating_sub(at) / STRIDE;
    for k in 0..strides {
        let i = at + k * STRIDE;
        if !is_feedless(&bytes[i..i + STRIDE]) {
            return i;
        }
    }
    at + strides * STRIDE
}

// The place of the next line feed from `at` on, or the end.
fn feed_from(bytes: &[u8], at: usize) -> usize
    ensures { (result ≡ at + feed_at (drop at bytes.now)) × (at ≤ result) × (result ≤ max at (length bytes.now)) }
{
    let start = feedless_from(bytes, at);
    for i in start..bytes.len() {
        if bytes[i] == b'\n' {
            return i;
        }
    }
    start.max(bytes.len())
}

// The bytes from `at` up to `end`; none past the end.
fn piece_of(bytes: &[u8], at: usize, end: usize) -> &[u8]
    requires { (at ≤ end) × (end ≤ max at (length bytes.now)) }
    ensures { result.now ≡ take (end - at) (drop at bytes.now) }
{
    if bytes.len() <= at {
        return &bytes[..0];
    }
    &bytes[at..end]
}

// Takes the bytes of a part from `at` on, up to and including the next line feed, or all if there is none, and adds them to the line
// in the room. The answer says whether the line has ended; then the next one begins from `no_line`. No other byte of the room changes.
pub fn next_line(bytes: &[u8], at: usize, room: &mut [u8], line: Line) -> Step
    ensures value { result ≡ step_of line (drop at bytes.now) at room.old }
    ensures room_after { room.new ≡ room_of line (drop at bytes.now) room.old }
{
    let end = feed_from(bytes, at);
    let piece = piece_of(bytes, at, end);
    let more = grown(line, piece, room);
    if end < bytes.len() {
        return Step {
            line: more,
            at: end + 1,
            ended: true,
        };
    }
    Step {
        line: more,
        at: end,
        ended: false,
    }
}
