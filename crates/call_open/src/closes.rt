// Close on one file: its buffers are given back, and unread input blocks are dropped.
ghost use Rattle.std.specs.Prelude.{◌≡◌};
ghost use Rattle.call_open.specs.Close.{close_refusal, close_on};

use area::row;
use channel::{Channel, has_request};
use file::{File, FileChange, closed_file, file_change};
use file_output::has_unsent;

// The refusal of a close, 0 for none.
fn close_refusal(c1: bool, f: File, c: Channel) -> u8
    ensures { result ≡ close_refusal c1 f c }
{
    let asked = has_request(c, f.unit as usize);
    let unsent = has_unsent(f);
    row(1, c1, row(5, !f.opened, row(8, asked, row(15, unsent, 0))))
}

// A close of the file f, whose unit is one of the channel c. `c1` is whether row 1 applies.
pub fn close_on(c1: bool, f: File, c: Channel) -> FileChange
    ensures { result ≡ close_on c1 f c }
{
    file_change(close_refusal(c1, f, c), f, closed_file())
}
