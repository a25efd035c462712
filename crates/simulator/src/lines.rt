// A frame that may not be written to, answered: the session holds a line in a room of its own.
ghost use Rattle.std.specs.Prelude.{◌≡◌, length};
ghost use Rattle.session.specs.Rooms.{after_line};
ghost use Rattle.session_reply.specs.Replies.{answer_to};
ghost use Rattle.simulator.specs.Calls.{held_line};

use codec::put_bytes;
use session::{Answered, answer_line};
use state::State;

// Answers the line that the room holds of the frame, as `answer_line` does.
pub fn answer_held(
    s: State,
    area: &mut [u64],
    frame: &[u8],
    room: &mut [u8],
    words: &mut [u64],
    out: &mut [u8],
) -> Answered
    ensures state_value { result.state ≡ (after_line (answer_to s area.old (held_line (length room.old) frame.now)) s area.old (held_line (length room.old) frame.now) words.old out.old).state }
    ensures length_value { result.length ≡ (after_line (answer_to s area.old (held_line (length room.old) frame.now)) s area.old (held_line (length room.old) frame.now) words.old out.old).length }
    ensures area_after { area.new ≡ (after_line (answer_to s area.old (held_line (length room.old) frame.now)) s area.old (held_line (length room.old) frame.now) words.old out.old).area }
    ensures out_after { out.new ≡ (after_line (answer_to s area.old (held_line (length room.old) frame.now)) s area.old (held_line (length room.old) frame.now) words.old out.old).out }
{
    if room.len() < frame.len() {
        return answer_line(s, area, &mut room[..0], words, out);
    }
    put_bytes(room, 0, frame);
    let n = frame.len();
    answer_line(s, area, &mut room[..n], words, out)
}
