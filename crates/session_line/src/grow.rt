// A line that grows by a piece without a line feed.
ghost use Rattle.std.specs.Prelude.{◌≡◌, ◌≤◌};
ghost use Rattle.area.specs.Parts.{paste_fits, pasted_in};
ghost use Rattle.session_line.specs.Machine.{filled_in, overlong_line, grown_line, grown_room};

use crate::Line;

// Puts the bytes into the area from byte `at` on, and says whether they fit there. Bytes that do not fit change nothing.
fn copy_in(area: &mut [u8], at: usize, bytes: &[u8]) -> bool
    ensures value { result ≡ paste_fits at bytes.now area.old }
    ensures area_after { area.new ≡ pasted_in at bytes.now area.old }
{
    if area.len() < at {
        return false;
    }
    if area.len() - at < bytes.len() {
        return false;
    }
    let end = at + bytes.len();
    area[at..end].copy_from_slice(bytes);
    true
}

// How many characters of the line stand in a room of `len`: never more than it has.
fn filled_in(line: Line, len: usize) -> usize
    ensures { (result ≡ filled_in line len) × (result ≤ len) }
{
    line.filled.min(len)
}

// A line of which nothing is kept.
fn overlong_line() -> Line
    ensures { result ≡ overlong_line }
{
    Line {
        filled: 0,
        overlong: true,
    }
}

// The line with the piece added, copied into the room after what stands there. A line that the room does not take is overlong.
pub fn grown(line: Line, piece: &[u8], room: &mut [u8]) -> Line
    ensures value { result ≡ grown_line line piece.now room.old }
    ensures room_after { room.new ≡ grown_room line piece.now room.old }
{
    if line.overlong {
        return overlong_line();
    }
    let filled = filled_in(line, room.len());
    if copy_in(room, filled, piece) {
        return Line {
            filled: filled + piece.len(),
            overlong: false,
        };
    }
    overlong_line()
}
