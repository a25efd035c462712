// What a call on a whole state answers.
ghost use Rattle.std.specs.Prelude.{◌≡◌};
ghost use Rattle.state.specs.Answers.{called};
ghost use Rattle.state.specs.Stores.{with_file};

use crate::stores::with_file;
use crate::{Called, State};
use file::FileChange;

// The answer of a call on the file of that number, by what it made of the file: refused, the state as it was; accepted, the state with that file.
pub fn answer_of(s: State, file: u8, x: FileChange) -> Called
    ensures { result ≡ called x.refusal s (with_file s file x.file) }
{
    if x.refusal != 0 {
        return Called {
            refusal: x.refusal,
            state: s,
        };
    }
    Called {
        refusal: 0,
        state: with_file(s, file as usize, x.file),
    }
}
