// The calls on a desk: parts of the session and of the recorded answers, and their ends. A line of the session is answered, and then its recorded
// line is asked for: `waits` says so. What is not asked for is not taken: the place stays.
ghost use Rattle.std.specs.Prelude.{◌≡◌, ◌-◌};
ghost use Rattle.session_frame.specs.Frames.{frame_of};
ghost use Rattle.sheet.specs.Desks.{new_desk, line_after, followed_desk, played_desk, with_session, with_recorded, with_over, with_done, compared_desk, missing_desk, extra_desk, asks_no_line, asks_no_answer, taken_of, session_part, session_end, answers_part, answers_room, answers_end};

use crate::events::event_of;
use crate::lines::{front, held_length, text_of};
use crate::rows::{listed_after, next_number, none_listed, pick};
use crate::{Desk, Event, Taken};
use session::{ANSWER, WORDS, answer_line};
use session_frame::{LONGEST, frame_of};
use session_line::{Line, has_begun, next_line, no_line};
use state::{State, before_start};

// A desk on which nothing has come.
pub fn new_desk() -> Desk
    ensures { result ≡ new_desk }
{
    Desk {
        state: before_start(),
        session: no_line(),
        recorded: no_line(),
        frames: 0,
        differs: 0,
        waits: false,
        length: 0,
        over: false,
        done: false,
        listed: none_listed(),
    }
}

// The desk after the next frame, whose event is e, whose answer has `length` characters with its line feed, and after which the state is `state`: the
// requests are followed, and the answer waits for its recorded line. If the recorded answers have ended it differs.
fn followed(d: Desk, state: State, e: Event, length: usize) -> Desk
    ensures { result ≡ followed_desk d state e length }
{
    let k = next_number(d.frames);
    let listed = listed_after(d.listed, e, k);
    let missing = (d.differs == 0) & d.done;
    let differs = pick(missing, k, d.differs);
    Desk {
        state,
        session: no_line(),
        frames: k,
        differs,
        waits: (d.differs == 0) & !d.done,
        length: length.saturating_sub(1),
        listed,
        ..d
    }
}

// Plays a line of the session, which is the next frame; its answer stays in `out`, and the line stays.
fn played(d: Desk, area: &mut [u64], line: &mut [u8], words: &mut [u64], out: &mut [u8]) -> Desk
    ensures value { result ≡ played_desk d (frame_of line.old) (line_after d area.old line.old words.old out.old) }
    ensures area_after { area.new ≡ (line_after d area.old line.old words.old out.old).area }
    ensures words_after { words.new ≡ (line_after d area.old line.old words.old out.old).words }
    ensures out_after { out.new ≡ (line_after d area.old line.old words.old out.old).out }
    ensures line_unchanged { line.new ≡ line.old }
{
    let f = frame_of(&line[..]);
    let r = answer_line(d.state, area, line, words, out);
    let e = event_of(d.state, f, front(&out[..], r.length));
    followed(d, r.state, e, r.length)
}

// The desk with what has begun of a line of the session.
fn with_session(d: Desk, line: Line) -> Desk
    ensures { result ≡ with_session d line }
{
    Desk { session: line, ..d }
}

// The desk with what has begun of a recorded line.
fn with_recorded(d: Desk, line: Line) -> Desk
    ensures { result ≡ with_recorded d line }
{
    Desk {
        recorded: line,
        ..d
    }
}

// The desk after the session has ended, and after the recorded answers have.
fn with_over(d: Desk) -> Desk
    ensures { result ≡ with_over d }
{
    Desk { over: true, ..d }
}

fn with_done(d: Desk) -> Desk
    ensures { result ≡ with_done d }
{
    Desk { done: true, ..d }
}

// The answer that waits, compared with its recorded line.
fn compared(d: Desk, out: &[u8], recorded: &[u8]) -> Desk
    ensures { result ≡ compared_desk d out.now recorded.now }
{
    let alike = front(out, d.length) == recorded;
    let differs = pick(alike, d.differs, d.frames);
    Desk {
        recorded: no_line(),
        waits: false,
        differs,
        ..d
    }
}

// The answer that waits has no recorded line.
fn missing(d: Desk) -> Desk
    ensures { result ≡ missing_desk d }
{
    Desk {
        waits: false,
        differs: d.frames,
        ..d
    }
}

// There is a recorded line after the last answer.
fn extra(d: Desk) -> Desk
    ensures { result ≡ extra_desk d }
{
    Desk {
        differs: next_number(d.frames),
        ..d
    }
}

// Whether one of the session's rooms is too short, by their lengths, or its lines are not asked for.
fn asks_no_line(d: Desk, room: usize, words: usize, out: usize) -> bool
    ensures { result ≡ asks_no_line d room words out }
{
    d.waits | d.over | (room < LONGEST) | (words < WORDS) | (out < ANSWER)
}

// Takes bytes of a part of the session from `at` on, up to the end of a line, or all if none ends; a line that ends is played. `room` has 10,252
// characters for a line that has begun, `words` 1,024 words, and `out` 10,249 characters, in which the answer stays until it is compared.
// Nothing is taken while an answer waits, after the session's end, and with a shorter room.
pub fn session_part(
    d: Desk,
    area: &mut [u64],
    room: &mut [u8],
    words: &mut [u64],
    bytes: &[u8],
    at: usize,
    out: &mut [u8],
) -> Taken
    ensures value { result ≡ taken_of (session_part d area.old room.old words.old bytes.now at out.old) }
    ensures area_after { area.new ≡ (session_part d area.old room.old words.old bytes.now at out.old).area }
    ensures room_after { room.new ≡ (session_part d area.old room.old words.old bytes.now at out.old).room }
    ensures words_after { words.new ≡ (session_part d area.old room.old words.old bytes.now at out.old).words }
    ensures out_after { out.new ≡ (session_part d area.old room.old words.old bytes.now at out.old).out }
{
    if asks_no_line(d, room.len(), words.len(), out.len()) {
        return Taken { desk: d, at };
    }
    let step = next_line(bytes, at, room, d.session);
    if step.ended {
        let n = held_length(step.line, &room[..]);
        let desk = played(d, area, &mut room[..n], words, out);
        return Taken { desk, at: step.at };
    }
    let desk = with_session(d, step.line);
    Taken { desk, at: step.at }
}

// The end of the session: what has begun is the last line, and is played. Nothing happens where `session_part` takes nothing.
pub fn session_end(
    d: Desk,
    area: &mut [u64],
    room: &mut [u8],
    words: &mut [u64],
    out: &mut [u8],
) -> Desk
    ensures value { result ≡ (session_end d area.old room.old words.old out.old).desk }
    ensures area_after { area.new ≡ (session_end d area.old room.old words.old out.old).area }
    ensures words_after { words.new ≡ (session_end d area.old room.old words.old out.old).words }
    ensures out_after { out.new ≡ (session_end d area.old room.old words.old out.old).out }
    ensures room_unchanged { room.new ≡ room.old }
{
    if asks_no_line(d, room.len(), words.len(), out.len()) {
        return d;
    }
    if has_begun(d.session) {
        let n = held_length(d.session, &room[..]);
        return with_over(played(d, area, &mut room[..n], words, out));
    }
    with_over(d)
}

// Whether nothing is asked of the recorded answers: a difference is found, they have ended, or the session's next line comes first.
fn asks_no_answer(d: Desk, other: usize) -> bool
    ensures { result ≡ asks_no_answer d other }
{
    (d.differs != 0) | d.done | (!d.waits & !d.over) | (other < LONGEST)
}

// Takes bytes of a part of the recorded answers from `at` on, up to the end of a line, or all if none ends; a line that ends is compared with the
// answer in `out`. Any byte after the last answer is a line too many. `other` has 10,252 characters for a line that has begun. Nothing is
// taken unless an answer waits or the session is over, and nothing once a difference is found.
pub fn answers_part(d: Desk, other: &mut [u8], bytes: &[u8], at: usize, out: &[u8]) -> Taken
    ensures value { result ≡ answers_part d other.old bytes.now at out.now }
    ensures other_after { other.new ≡ answers_room d other.old bytes.now at }
{
    if asks_no_answer(d, other.len()) {
        return Taken { desk: d, at };
    }
    if !d.waits {
        if at < bytes.len() {
            return Taken { desk: extra(d), at };
        }
        return Taken { desk: d, at };
    }
    let step = next_line(bytes, at, other, d.recorded);
    if step.ended {
        let desk = compared(d, out, text_of(step.line, &other[..]));
        return Taken { desk, at: step.at };
    }
    let desk = with_recorded(d, step.line);
    Taken { desk, at: step.at }
}

// The end of the recorded answers: what has begun is the last line, and is compared; an answer that waits for a line that has not begun has none.
pub fn answers_end(d: Desk, other: &[u8], out: &[u8]) -> Desk
    ensures { result ≡ answers_end d other.now out.now }
{
    if d.done {
        return d;
    }
    if !d.waits {
        return with_done(d);
    }
    if has_begun(d.recorded) {
        return with_done(compared(d, out, text_of(d.recorded, other)));
    }
    with_done(missing(d))
}
