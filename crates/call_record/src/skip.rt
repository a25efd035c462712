// Skip on one file: its oldest full block is dropped.
ghost use Rattle.std.specs.Prelude.{◌≡◌};
ghost use Rattle.call_record.specs.Skip.{skip_refusal, skip_on};

use area::row;
use file::{File, FileChange, file_change, without_oldest};
use file_input::has_full;

// The refusal of a skip of this file; c1 is what is known of row 1.
pub fn skip_refusal(c1: bool, f: File) -> u8
    ensures { result ≡ skip_refusal c1 f }
{
    let full = has_full(f);
    row(1, c1, row(5, !f.opened, row(6, f.output, row(9, !full, 0))))
}

// Skip on one file.
pub fn skip_on(c1: bool, f: File) -> FileChange
    ensures { result ≡ skip_on c1 f }
{
    file_change(skip_refusal(c1, f), f, without_oldest(f))
}
