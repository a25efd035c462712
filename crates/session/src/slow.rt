// A session over a slow line: it comes in parts, cut anywhere, and then it ends.
ghost use Rattle.std.specs.Prelude.{◌≡◌};
ghost use Rattle.session.specs.Talks.{new_talk, short_rooms, desk_with, heard_of, part_call, end_call};

use crate::play::{play_end, play_part};
use crate::{ANSWER, Heard, Talk, WORDS};
use session_frame::LONGEST;
use session_line::no_line;
use state::before_start;

// The numbers of the refusals: a room that is too short, and a call after the end.
const SHORT: u8 = 1;

const ENDED: u8 = 17;

// A session of which nothing has come, before the first fresh start.
pub fn new_talk() -> Talk
    ensures { result ≡ new_talk }
{
    Talk {
        state: before_start(),
        line: no_line(),
        ended: false,
    }
}

// Whether one of the rooms is too short, by their lengths.
fn lacks_room(room: usize, words: usize, out: usize) -> bool
    ensures { result ≡ short_rooms room words out }
{
    (room < LONGEST) | (words < WORDS) | (out < ANSWER)
}

// The answer to a call that is refused: the session stays, and nothing is read or written.
fn refused(n: u8, t: Talk, at: usize) -> Heard
    ensures { result ≡ record { refusal = n; talk = t; at = at; length = 0 } }
{
    Heard {
        refusal: n,
        talk: t,
        at,
        length: 0,
    }
}

// Plays a part of the session from `at` on, until it is used up or the output has less than an answer's length left; then the caller takes the
// answers off the front of `out`, and calls again from the place reached. What has come of the next line is kept by the session and `room`, which
// has 10,252 characters; `words` is a room of 1,024, and `out` of at least 10,249. Refused, and nothing changes: 17 after the end, 1 with a shorter
// room. The state is not judged: from `new_talk` on it stays sound.
pub fn talk_part(
    t: Talk,
    area: &mut [u64],
    room: &mut [u8],
    words: &mut [u64],
    bytes: &[u8],
    at: usize,
    out: &mut [u8],
) -> Heard
    ensures value { result ≡ heard_of (part_call (desk_with t area.old room.old words.old) bytes.now at out.old) }
    ensures area_after { area.new ≡ (part_call (desk_with t area.old room.old words.old) bytes.now at out.old).desk.area }
    ensures room_after { room.new ≡ (part_call (desk_with t area.old room.old words.old) bytes.now at out.old).desk.room }
    ensures words_after { words.new ≡ (part_call (desk_with t area.old room.old words.old) bytes.now at out.old).desk.words }
    ensures out_after { out.new ≡ (part_call (desk_with t area.old room.old words.old) bytes.now at out.old).out }
{
    let over = t.ended;
    if over {
        return refused(ENDED, t, at);
    }
    if lacks_room(room.len(), words.len(), out.len()) {
        return refused(SHORT, t, at);
    }
    let p = play_part(false, t.state, area, t.line, room, words, bytes, at, out);
    let talk = Talk {
        state: p.state,
        line: p.line,
        ended: false,
    };
    Heard {
        refusal: 0,
        talk,
        at: p.at,
        length: p.length,
    }
}

// Ends the session: what has begun is the last line, and its answer goes to the front of `out`; nothing is written if none has. The rooms are those
// of `talk_part`. Refused, and nothing changes: 17 a second time, 1 with a shorter room.
pub fn talk_end(
    t: Talk,
    area: &mut [u64],
    room: &mut [u8],
    words: &mut [u64],
    out: &mut [u8],
) -> Heard
    ensures value { result ≡ heard_of (end_call (desk_with t area.old room.old words.old) out.old) }
    ensures area_after { area.new ≡ (end_call (desk_with t area.old room.old words.old) out.old).desk.area }
    ensures room_after { room.new ≡ (end_call (desk_with t area.old room.old words.old) out.old).desk.room }
    ensures words_after { words.new ≡ (end_call (desk_with t area.old room.old words.old) out.old).desk.words }
    ensures out_after { out.new ≡ (end_call (desk_with t area.old room.old words.old) out.old).out }
{
    let again = t.ended;
    if again {
        return refused(ENDED, t, 0);
    }
    if lacks_room(room.len(), words.len(), out.len()) {
        return refused(SHORT, t, 0);
    }
    let x = play_end(t.state, area, t.line, room, words, out);
    let talk = Talk {
        state: x.state,
        line: no_line(),
        ended: true,
    };
    Heard {
        refusal: 0,
        talk,
        at: 0,
        length: x.length,
    }
}
