// Seal on a whole state.
ghost use Rattle.std.specs.Prelude.{◌≡◌};
ghost use Rattle.pack_record.specs.Seals.{seal_by, seal_by_area};

use crate::misuse::is_misused;
use call_record::seal_on;
use state::{Called, State, answer_of, file_at};

// Seal: the check word into the file's part of the area, and the state after it.
pub fn seal(s: State, area: &mut [u64], file: u8) -> Called
    ensures value { result ≡ seal_by s area.old file }
    ensures area_after { area.new ≡ seal_by_area s area.old file }
{
    let c1 = is_misused(s, area.len(), file);
    let f = file_at(s, file as usize);
    let x = seal_on(c1, f, s.w, area);
    answer_of(s, file, x)
}
