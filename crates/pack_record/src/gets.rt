// Get on a whole state.
ghost use Rattle.std.specs.Prelude.{◌≡◌};
ghost use Rattle.pack_record.specs.Gets.{get_by, get_words};

use crate::Getting;
use crate::misuse::is_misused;
use call_record::{get_on, got_words};
use state::{State, file_at, with_file};

// Get: what it finds in the file, and the state after it.
pub fn get(s: State, area: &[u64], file: u8) -> Getting
    ensures { result ≡ get_by s area.now file }
{
    let c1 = is_misused(s, area.len(), file);
    let f = file_at(s, file as usize);
    let x = get_on(c1, f, s.w, area);
    if x.refusal != 0 {
        return Getting {
            refusal: x.refusal,
            got: x.got,
            state: s,
        };
    }
    let t = with_file(s, file as usize, x.file);
    Getting {
        refusal: 0,
        got: x.got,
        state: t,
    }
}

// The words that get shows, in one call; none if it is refused.
pub fn get_words(s: State, area: &[u64], file: u8) -> &[u64]
    ensures { result.now ≡ get_words s area.now file }
{
    let wrong = is_misused(s, area.len(), file);
    let f = file_at(s, file as usize);
    got_words(area, get_on(wrong, f, s.w, area).got)
}
