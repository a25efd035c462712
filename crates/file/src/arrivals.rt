// How a full block arrived, and what get has to tell of it.
ghost use Rattle.std.specs.Prelude.{◌≡◌, ◌||◌, eqb};
ghost use Rattle.file.specs.Arrivals.{redundancy_error, incomplete_error, no_arrival, error_due, error_told, after_told, is_arrival, is_no_arrival};

use crate::{Arrival, INCOMPLETE_ERROR, REDUNDANCY_ERROR};
use word::{Checked, is_checked, is_exact, is_unchecked, not_checked, told_check, with_error};

// A block that did not arrive, as one that was sealed: all zero.
pub fn no_arrival() -> Arrival
    ensures { result ≡ no_arrival }
{
    Arrival {
        failed: 0,
        check: not_checked(),
    }
}

// The error that get has to tell next: the read error, else the check error; 0 for none.
pub fn error_due(a: Arrival) -> u8
    ensures { result ≡ error_due a }
{
    if a.failed == 0 {
        return a.check.error;
    }
    a.failed
}

// What get's answer tells: the number of that error, and what was found at delivery.
pub fn error_told(a: Arrival) -> Checked
    ensures { result ≡ error_told a }
{
    with_error(error_due(a), a.check)
}

// The same after that error was told.
pub fn after_told(a: Arrival) -> Arrival
    ensures { result ≡ after_told a }
{
    if a.failed == 0 {
        return Arrival {
            check: told_check(a.check),
            ..a
        };
    }
    Arrival { failed: 0, ..a }
}

// Whether a number is that of a read error that get tells of a block that was kept.
fn is_read_error(n: u8) -> bool
    ensures { result ≡ (eqb n redundancy_error || eqb n incomplete_error) }
{
    matches!(n, REDUNDANCY_ERROR | INCOMPLETE_ERROR)
}

// Whether this may stand with a block of a file that has chosen these fields: the read error 0, 4 or 10, and told before the check error.
pub fn is_arrival(sequence: bool, check: bool, a: Arrival) -> bool
    ensures { result ≡ is_arrival sequence check a }
{
    let fits = is_checked(sequence, check, a.check);
    let untold = is_exact(sequence, check, a.check);
    fits & ((a.failed == 0) | (is_read_error(a.failed) & untold))
}

// Whether all is zero.
pub fn is_no_arrival(a: Arrival) -> bool
    ensures { result ≡ is_no_arrival a }
{
    (a.failed == 0) & is_unchecked(a.check)
}
