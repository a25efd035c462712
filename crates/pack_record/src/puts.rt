// Put on a whole state.
ghost use Rattle.std.specs.Prelude.{◌≡◌};
ghost use Rattle.pack_record.specs.Puts.{put_by, put_by_area};

use crate::misuse::is_misused;
use call_record::put_on;
use state::{Called, State, answer_of, file_at};

// Put: the words into the file's part of the area, and the state after it.
pub fn put(s: State, area: &mut [u64], file: u8, words: &[u64]) -> Called
    ensures value { result ≡ put_by s area.old file words.now }
    ensures area_after { area.new ≡ put_by_area s area.old file words.now }
{
    let c1 = is_misused(s, area.len(), file);
    let f = file_at(s, file as usize);
    let x = put_on(c1, f, s.w, area, words);
    answer_of(s, file, x)
}
