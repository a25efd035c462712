// What a call on one file answers.
ghost use Rattle.std.specs.Prelude.{◌≡◌};
ghost use Rattle.file.specs.Changes.{file_change};

use crate::{File, FileChange};

// The answer of a call: refused, the file as it was; accepted, the one that the call makes of it.
pub fn file_change(refusal: u8, f: File, after: File) -> FileChange
    ensures { result ≡ file_change refusal f after }
{
    if refusal != 0 {
        return FileChange { refusal, file: f };
    }
    FileChange {
        refusal,
        file: after,
    }
}
