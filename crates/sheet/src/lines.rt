// Lines as texts: a line that was put together in its room, and the front of a text.
ghost use Rattle.std.specs.Prelude.{◌≡◌, ◌≤◌, length, take};
ghost use Rattle.sheet.specs.Desks.{held_text};

use session_line::Line;

// The first n characters, or all.
pub fn front(text: &[u8], n: usize) -> &[u8]
    ensures { result.now ≡ take n text.now }
{
    &text[..n.min(text.len())]
}

// How many characters of the room the line in it has.
pub fn held_length(line: Line, room: &[u8]) -> usize
    ensures { (take result room.now ≡ held_text line room.now) × (result ≤ length room.now) }
{
    if line.overlong {
        return 0;
    }
    line.filled.min(room.len())
}

// The line in the room; an overlong one is empty: a session's is malformed as the empty line is, and no answer is either.
pub fn text_of(line: Line, room: &[u8]) -> &[u8]
    ensures { result.now ≡ held_text line room.now }
{
    if line.overlong {
        return front(room, 0);
    }
    front(room, line.filled)
}
