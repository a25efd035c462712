// The player: a line to its frame and its words; as many lines as a part has, each played and answered; the last one; and one line alone.
ghost use Rattle.std.specs.Prelude.{◌≡◌, ◌++◌, ◌+◌, ◌≤◌, length, take, drop};
ghost use Rattle.area.specs.Parts.{part_of, paste, pasted_in};
ghost use Rattle.session_frame.specs.Frames.{frame_of};
ghost use Rattle.session_frame.specs.Answers.{answer_text};
ghost use Rattle.session_frame.specs.Writes.{place_after};
ghost use Rattle.session_reply.specs.Replies.{answer_to};
ghost use Rattle.session.specs.Rooms.{most_words, most_text, given_in, after_line};
ghost use Rattle.session.specs.Player.{held_text, player_with, play_part, played_of, end_of};

use crate::{ANSWER, Answered, Framed, Played, WORDS};
use area::part;
use pool::{FILES, free_after};
use session_frame::{Answer, Frame, frame_of, words_at, words_into, write_answer};
use session_line::{Line, has_begun, next_line, no_line};
use session_reply::{
    Group, answer_or, binding_on, channel_place, file_number, group_of, index_in, is_still,
    named_file, post_for, posted, record_on, request_on, routine_on, whole_refusal, whole_state,
};
use state::State;
use state_sound::is_sound;

// The words of the line to the front of the room; how many they are.
fn given(f: Frame, line: &[u8], room: &mut [u64]) -> usize
    ensures value { result ≡ length (given_in f line.now (length room.old)) }
    ensures room_after { room.new ≡ paste 0 (given_in f line.now (length room.old)) room.old }
{
    match f {
        Frame::Report(q) => words_into(line, words_at(q), room),
        Frame::Put(_) => words_into(line, 2, room),
        _ => 0,
    }
}

// The line in the room. Nothing is kept of an overlong line: it is malformed, and so is the empty one that stands for it.
fn text_of(line: Line, room: &[u8]) -> &[u8]
    ensures { result.now ≡ held_text line room.now }
{
    if line.overlong {
        return &room[..0];
    }
    &room[..line.filled.min(room.len())]
}

// The frame of the line in the room; its words go to the front of theirs.
fn frame_in(line: Line, room: &[u8], words: &mut [u64]) -> Framed
    ensures frame_value { (result.frame ≡ frame_of (held_text line room.now)) × (result.count ≤ length words.old) }
    ensures count_value { result.count ≡ length (given_in result.frame (held_text line room.now) (length words.old)) }
    ensures words_after { words.new ≡ paste 0 (given_in result.frame (held_text line room.now) (length words.old)) words.old }
{
    let text = text_of(line, room);
    let frame = frame_of(text);
    let count = given(frame, text, words);
    Framed { frame, count }
}

// Writes an answer that shows a part of the area after place `end` of the output. The answer is the place after it.
fn answer_at(
    a: Answer,
    start: usize,
    count: usize,
    area: &[u64],
    out: &mut [u8],
    end: usize,
) -> usize
    requires { end ≤ length out.old }
    ensures value { (result ≡ end + place_after 0 (answer_text a (part_of start count area.now)) (drop end out.old)) × (result ≤ length out.old) }
    ensures out_after { out.new ≡ take end out.old ++ pasted_in 0 (answer_text a (part_of start count area.now)) (drop end out.old) }
{
    let shown = part(area, start, count);
    let n = write_answer(a, shown, &mut out[end..]);
    end + n
}

// Plays a part of a session from `at` on, until it is used up or the output has less than an answer's length left: the answers stand at the
// front of `out`, and their length is given. What has come of the next line is kept by `line` and `room`; `words` is a room of 1,024.
// `unsound` is what the caller knows of the state: it is not judged. It is held here and changed where it lies, a file and a channel at a time.
pub fn play_part(
    unsound: bool,
    s: State,
    area: &mut [u64],
    line: Line,
    room: &mut [u8],
    words: &mut [u64],
    bytes: &[u8],
    at: usize,
    out: &mut [u8],
) -> Played
    requires { most_words ≤ length words.old }
    ensures value { result ≡ played_of (play_part unsound bytes.now (player_with s area.old line room.old words.old at out.old 0)) }
    ensures area_after { area.new ≡ (play_part unsound bytes.now (player_with s area.old line room.old words.old at out.old 0)).area }
    ensures room_after { room.new ≡ (play_part unsound bytes.now (player_with s area.old line room.old words.old at out.old 0)).room }
    ensures words_after { words.new ≡ (play_part unsound bytes.now (player_with s area.old line room.old words.old at out.old 0)).words }
    ensures out_after { out.new ≡ (play_part unsound bytes.now (player_with s area.old line room.old words.old at out.old 0)).out }
{
    let mut t = s;
    let mut more = line;
    let mut place = at;
    let mut end = 0;
    // a turn takes as many bytes as `next_line` says, so there is no range to go over
    while place < bytes.len() {
        if out.len() - end < ANSWER {
            return Played {
                state: t,
                line: more,
                at: place,
                length: end,
            };
        }
        let step = next_line(bytes, place, room, more);
        more = step.line;
        place = step.at;
        if !step.ended {
            continue;
        }
        let q = frame_in(more, &room[..], words);
        more = no_line();
        let frame = q.frame;
        match group_of(frame) {
            Group::Request => {
                let i = file_number(frame, t.files);
                let k = index_in(i, FILES);
                let old = t.files[k];
                let l = channel_place(frame, i, old);
                let was = t.channels[l];
                let held = t.routines;
                let stood = post_for(frame, i, old, held);
                let x = request_on(
                    unsound,
                    t.m,
                    t.w,
                    t.frozen,
                    frame,
                    i,
                    old,
                    was,
                    stood,
                    area,
                    &words[..q.count],
                );
                let free = free_after(t.free, old, x.file);
                t.files[k] = x.file;
                t.channels[l] = x.channel;
                t.free = free;
                end = answer_at(x.answer, x.start, x.count, &area[..], out, end);
                if !is_still(stood, x.post, x.looks) {
                    t.routines = posted(held, t.frozen, frame, i, old, x.post, x.looks);
                }
            }
            Group::Whole => {
                let no = whole_refusal(unsound, area.len(), frame);
                let a = answer_or(no, Answer::Done);
                end = answer_at(a, 0, 0, &area[..], out, end);
                if no == 0 {
                    t = whole_state(t, frame);
                }
            }
            Group::Routine => {
                let x = routine_on(unsound, t.frozen, t.routines, frame);
                t.routines = x.routines;
                end = answer_at(x.answer, 0, 0, &area[..], out, end);
            }
            Group::Binding => {
                let i = named_file(frame) as usize;
                let k = index_in(i, FILES);
                let old = t.files[k];
                let l = channel_place(frame, i, old);
                let was = t.channels[l];
                let x = binding_on(unsound, t.w, t.free, t.files, frame, i, old, was);
                let free = free_after(t.free, old, x.file);
                t.files[k] = x.file;
                t.free = free;
                end = answer_at(x.answer, x.start, x.count, &area[..], out, end);
            }
            Group::Record => {
                let i = named_file(frame) as usize;
                let k = index_in(i, FILES);
                let old = t.files[k];
                let x = record_on(unsound, t.m, t.w, frame, i, old, area, &words[..q.count]);
                let free = free_after(t.free, old, x.file);
                t.files[k] = x.file;
                t.free = free;
                end = answer_at(x.answer, x.start, x.count, &area[..], out, end);
            }
        }
    }
    Played {
        state: t,
        line: more,
        at: place,
        length: end,
    }
}

// The end of the session: what has begun is the last line, as if a line feed came, and its answer goes to the front of `out`; nothing is written if
// none has.
pub fn play_end(
    s: State,
    area: &mut [u64],
    line: Line,
    room: &mut [u8],
    words: &mut [u64],
    out: &mut [u8],
) -> Answered
    requires { (most_words ≤ length words.old) × (most_text ≤ length out.old) }
    ensures state_value { result.state ≡ (end_of s area.old line room.old words.old out.old).state }
    ensures length_value { result.length ≡ (end_of s area.old line room.old words.old out.old).length }
    ensures area_after { area.new ≡ (end_of s area.old line room.old words.old out.old).area }
    ensures words_after { words.new ≡ (end_of s area.old line room.old words.old out.old).words }
    ensures out_after { out.new ≡ (end_of s area.old line room.old words.old out.old).out }
    ensures room_unchanged { room.new ≡ room.old }
{
    if has_begun(line) {
        let p = play_part(false, s, area, line, room, words, b"\n", 0, out);
        return Answered {
            state: p.state,
            length: p.length,
        };
    }
    Answered {
        state: s,
        length: 0,
    }
}

// Answers one line, its line feed left out, against the state and the area: gives the state after it and the length of the answer, which
// stands at the front of `out`, line feed last; every other character of `out` stays. The line's words come to stand at the front of `words`, and
// the line stays. A room for words under 1,024 or for the answer under 10,249 is refused beforehand: nothing changes, and the length is 0.
pub fn answer_line(
    s: State,
    area: &mut [u64],
    line: &mut [u8],
    words: &mut [u64],
    out: &mut [u8],
) -> Answered
    ensures state_value { result.state ≡ (after_line (answer_to s area.old line.old) s area.old line.old words.old out.old).state }
    ensures length_value { result.length ≡ (after_line (answer_to s area.old line.old) s area.old line.old words.old out.old).length }
    ensures area_after { area.new ≡ (after_line (answer_to s area.old line.old) s area.old line.old words.old out.old).area }
    ensures words_after { words.new ≡ (after_line (answer_to s area.old line.old) s area.old line.old words.old out.old).words }
    ensures out_after { out.new ≡ (after_line (answer_to s area.old line.old) s area.old line.old words.old out.old).out }
    ensures line_unchanged { line.new ≡ line.old }
{
    if (words.len() < WORDS) | (out.len() < ANSWER) {
        return Answered {
            state: s,
            length: 0,
        };
    }
    let good = is_sound(s);
    let held = Line {
        filled: line.len(),
        overlong: false,
    };
    let p = play_part(!good, s, area, held, line, words, b"\n", 0, out);
    Answered {
        state: p.state,
        length: p.length,
    }
}
