// Decimal numbers in a text, one after the other: how the programs that play stored cases read their input.
// It knows nothing of what the numbers mean.
#![tactic(auto)]

ghost use Rattle.std.specs.Prelude.{◌≡◌, ◌+◌, ◌≤◌, min, max, length, drop, IsTrue};
ghost use Rattle.numbers.specs.Decimal.{is_digit, tenfold, gap, next_of};

// A number, and the place after its last digit.
#[derive(Clone, Copy, PartialEq, Eq, Debug)]
pub struct Number {
    pub value: u64,
    pub at: usize,
}

// The number with one digit more after it, or the largest one where that is more.
fn with_digit(v: u64, c: u8) -> u64
    requires { IsTrue (is_digit c) }
    ensures { result ≡ tenfold v c }
{
    v.saturating_mul(10).saturating_add(u64::from(c - b'0'))
}

// The place of the first digit from `at` on, or the end of the text.
fn digit_from(text: &[u8], at: usize) -> usize
    ensures { (result ≡ at + gap (drop at text.now)) × (at ≤ result) × (result ≤ max at (length text.now)) }
{
    for i in at..text.len() {
        if text[i].is_ascii_digit() {
            return i;
        }
    }
    at.max(text.len())
}

// The number whose digits come next from `at` on, and the place after them. At the end of the text it is 0.
// Before the end it moves on, and it never passes the end.
pub fn next(text: &[u8], at: usize) -> Number
    ensures value { result ≡ next_of text.now at }
    ensures at_le_at { (at ≤ result.at) × (min (at + 1) (length text.now) ≤ result.at) × (result.at ≤ max at (length text.now)) }
{
    let start = digit_from(text, at);
    let mut value: u64 = 0;
    for i in start..text.len() {
        if !text[i].is_ascii_digit() {
            return Number { value, at: i };
        }
        value = with_digit(value, text[i]);
    }
    Number {
        value,
        at: start.max(text.len()),
    }
}
