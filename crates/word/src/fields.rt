// The check word's fields, placed in a 36-bit word and taken out of it by shifts and masks.
ghost use Rattle.std.specs.Prelude.{◌≡◌, ◌^◌, ◌<◌, ◌≤◌};
ghost use Rattle.word.specs.Sums.{first_half};
ghost use Rattle.word.specs.CheckWords.{address, block_numbers, chosen, check_word, extra as extraOf, next_number};

use crate::BLOCK_NUMBERS;

// e: how many words of a block are its check word, 1 if sequence or check sums are chosen, else 0.
pub fn extra(sequence: bool, check: bool) -> u16
    ensures { (result ≡ extraOf sequence check) × (result ≤ 1) }
{
    u16::from(sequence | check)
}

// A field's value if it is chosen, else 0.
fn field(choice: bool, n: u64) -> u64
    ensures { (result ≡ chosen choice n) × (result ≤ n) }
{
    if choice { n } else { 0 }
}

// The check word for a logical sum and a block number: the folded sum in the first 18 bits, the number in the low 15, each if chosen.
pub fn check_word(sequence: bool, check: bool, sum: u64, number: u16) -> u64
    ensures { (result ≡ check_word sequence check sum number) × (result < 2 ^ 36) }
{
    let high = field(check, crate::sums::folded(sum));
    let low = field(sequence, (number as u64) & 0x7fff);
    (high << 18) | low
}

// The first 18 bits of a word: where a check word has the folded sum.
pub fn sum_field(w: u64) -> u64
    ensures { (result ≡ first_half w) × (result < 2 ^ 18) }
{
    (w >> 18) & 0x3_ffff
}

// The low 15 bits of a word: where a check word has the block number.
pub fn number_field(w: u64) -> u64
    ensures { (result ≡ address w) × (result < 2 ^ 15) }
{
    w & 0x7fff
}

// The block number after n: one more, and 0 after 32,767.
pub fn next_number(n: u16) -> u16
    ensures { (result ≡ next_number n) × (result < block_numbers) }
{
    (((n as u32) + 1) % BLOCK_NUMBERS) as u16
}
