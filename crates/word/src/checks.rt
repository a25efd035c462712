// What the check of a block finds: the sum and the number that were worked out, the two fields that were read, and the error of those that are chosen.
ghost use Rattle.std.specs.Prelude.{◌≡◌, ◌≤◌, if◌then◌else◌, nat_eq};
ghost use Rattle.word.specs.CheckWords.{chosen};
ghost use Rattle.word.specs.Checks.{error_of, check_of, unchecked, told_check, with_error, is_checked, is_exact, is_unchecked};

use crate::fields::{number_field, sum_field};
use crate::sums::folded;
use crate::{BLOCK_NUMBERS, Checked, SUMS};

// The error of a field that is to hold `due`, if it is chosen.
fn mismatch(choice: bool, found: u32, due: u32, error: u8) -> u8
    ensures { (result ≡ chosen choice (if nat_eq found due then 0 else error)) × (result ≤ error) }
{
    if choice && found != due { error } else { 0 }
}

// The error of the fields that were read, by the sum and the number that were worked out. Only the chosen fields are compared.
fn error_of(sequence: bool, check: bool, sum: u32, number: u16, sumread: u32, numberread: u16) -> u8
    ensures { result ≡ error_of sequence check sum number sumread numberread }
{
    let a = mismatch(sequence, numberread as u32, number as u32, 1);
    let b = mismatch(check, sumread, sum, 2);
    a + b
}

// What the check word of a block shows, by the logical sum of its data words and the number that it is due.
pub fn check_of(sequence: bool, check: bool, sum: u64, number: u16, word: u64) -> Checked
    ensures { result ≡ check_of sequence check sum number word }
{
    let due = folded(sum) as u32;
    let sumread = sum_field(word) as u32;
    let numberread = number_field(word) as u16;
    Checked {
        error: error_of(sequence, check, due, number, sumread, numberread),
        sum: due,
        number,
        sumread,
        numberread,
    }
}

// Nothing was checked: all zero.
pub fn not_checked() -> Checked
    ensures { result ≡ unchecked }
{
    Checked::default()
}

// The same without its error, which was told.
pub fn told_check(c: Checked) -> Checked
    ensures { result ≡ told_check c }
{
    Checked { error: 0, ..c }
}

// The same with another error's number.
pub fn with_error(n: u8, c: Checked) -> Checked
    ensures { result ≡ with_error n c }
{
    Checked { error: n, ..c }
}

// Whether this may stand with a block of a file that has chosen these fields: each field in its range, the error 0 or that of the chosen fields.
pub fn is_checked(sequence: bool, check: bool, c: Checked) -> bool
    ensures { result ≡ is_checked sequence check c }
{
    let error = error_of(sequence, check, c.sum, c.number, c.sumread, c.numberread);
    let due = (c.sum < SUMS) & ((c.number as u32) < BLOCK_NUMBERS);
    let read = (c.sumread < SUMS) & ((c.numberread as u32) < BLOCK_NUMBERS);
    let some = (sequence | check) | ((c.sumread == 0) & (c.numberread == 0));
    (due & (read & some)) & ((c.error == 0) | (c.error == error))
}

// Whether the error is that of the chosen fields: it was not told yet.
pub fn is_exact(sequence: bool, check: bool, c: Checked) -> bool
    ensures { result ≡ is_exact sequence check c }
{
    c.error == error_of(sequence, check, c.sum, c.number, c.sumread, c.numberread)
}

// Whether all is zero.
pub fn is_unchecked(c: Checked) -> bool
    ensures { result ≡ is_unchecked c }
{
    c == not_checked()
}
