// 36-bit words: the logical sum of words and its fold; the fields of a check word, put in and taken out, and what comparing them finds; the next
// block number.
// It knows nothing of blocks, files, buffers or channels.
#![tactic(auto)]

pub use checks::{
    check_of, is_checked, is_exact, is_unchecked, not_checked, told_check, with_error,
};
pub use fields::{check_word, extra, next_number, number_field, sum_field};
pub use sums::{folded, logical_sum};

// Block numbers are 0 to 32,767: how many there are, and the last.
pub const BLOCK_NUMBERS: u32 = 32768;

pub const LAST_NUMBER: u16 = (BLOCK_NUMBERS - 1) as u16;

// Folded sums are below this.
pub const SUMS: u32 = 1 << 18;

// What the check of a block found. `error` is 1 for the sequence, 2 for the check sum, 3 for both, 0 for none, and 0 once it was told; `sum` and `number`
// are the folded sum and the block number that were worked out, `sumread` and `numberread` the fields of the check word.
#[derive(Clone, Copy, PartialEq, Eq, Debug, Default)]
pub struct Checked {
    pub error: u8,
    pub sum: u32,
    pub number: u16,
    pub sumread: u32,
    pub numberread: u16,
}

pub mod checks;
pub mod fields;
pub mod sums;
