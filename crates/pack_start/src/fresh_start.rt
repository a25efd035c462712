// Fresh start: it closes everything, drops all requests and routines, thaws, resets the scans and declares the units. It touches no word.
ghost use Rattle.std.specs.Prelude.{◌≡◌, length};
ghost use Rattle.pack_start.specs.Fresh.{is_mask, are_masks, fresh_refusal, fresh_state, fresh_by};

use crate::Masks;
use area::row;
use channel::UNITS;
use file::closed_file;
use pool::{FILES, all_free, pool_fits};
use routines::no_routines;
use state::{Called, State};
use state_sound::is_sound;

// Masks are below this: they have no bit above the last unit.
const MASKS: u32 = 1 << UNITS;

fn is_mask(mask: u16) -> bool
    ensures { result ≡ is_mask mask }
{
    u32::from(mask) < MASKS
}

// Whether no mask has a bit above the last unit.
fn are_masks(masks: Masks) -> bool
    ensures { result ≡ are_masks masks }
{
    let a = is_mask(masks.a);
    let b = is_mask(masks.b);
    let c = is_mask(masks.c);
    let d = is_mask(masks.d);
    let e = is_mask(masks.e);
    a & (b & (c & (d & e)))
}

// The refusal of a fresh start with an area of n words, 0 for none. `wrong` is what its caller found of row 1: that the state is unsound.
pub fn fresh_refusal(wrong: bool, m: u8, w: u16, masks: Masks, n: usize) -> u8
    ensures { result ≡ fresh_refusal wrong m w masks n }
{
    let pool = pool_fits(m, w);
    let units = are_masks(masks);
    let short = n < (m as usize) * (w as usize);
    let c1 = wrong | (!pool | (!units | short));
    row(1, c1, 0)
}

// The state after a fresh start.
pub fn fresh_state(m: u8, w: u16, masks: Masks) -> State
    ensures { result ≡ fresh_state m w masks }
{
    let a = channel::fresh(masks.a);
    let b = channel::fresh(masks.b);
    let c = channel::fresh(masks.c);
    let d = channel::fresh(masks.d);
    let e = channel::fresh(masks.e);
    State {
        m,
        w,
        frozen: false,
        channels: [a, b, c, d, e],
        files: [closed_file(); FILES],
        free: all_free(m),
        routines: no_routines(),
    }
}

// A fresh start. Nothing of the state passed is used, but it is judged as every call judges it.
pub fn fresh(s: State, area: &[u64], m: u8, w: u16, masks: Masks) -> Called
    ensures { result ≡ fresh_by s (length area.now) m w masks }
{
    let whole = is_sound(s);
    let no = fresh_refusal(!whole, m, w, masks, area.len());
    if no != 0 {
        return Called {
            refusal: no,
            state: s,
        };
    }
    Called {
        refusal: 0,
        state: fresh_state(m, w, masks),
    }
}
