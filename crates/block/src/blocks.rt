// Blocks on a slice: sealed with their check word, and judged by it as delivered.
ghost use Rattle.std.specs.Prelude.{◌≡◌, ◌≤◌, take, MatchResult};
ghost use Rattle.word.specs.Sums.{logical_sum};
ghost use Rattle.word.specs.CheckWords.{chosen, check_word, extra};
ghost use Rattle.block.specs.Blocks.{block_seal_refusal, sealed_block, unsealed_number, refused_block, judged_block};

use area::are_words;
use word::{Checked, LAST_NUMBER, check_of, check_word, extra, logical_sum, not_checked};

// What judging a delivered block tells: the refusal, or 0 and then what its check found.
// It is no Result because the crates above, and the theorems, read the refusal as a number.
#[derive(Clone, Copy)]
pub struct Judged {
    pub refusal: u8,
    pub found: Checked,
}

// Why a block is not sealed: its number or its place is outside its range, or a word that is summed is 2^36 or more.
#[derive(Clone, Copy, PartialEq, Eq, Debug)]
enum Unsealed {
    Argument,
    TallWord,
}

// Its refusal number.
impl From<Unsealed> for u8 {
    ghost from_gives = { λ why number. number ≡ unsealed_number why };

    fn from(why: Unsealed) -> u8 {
        match why {
            Unsealed::Argument => 1,
            Unsealed::TallWord => 2,
        }
    }
}

// How many of n data words are summed: all if check sums are chosen, else none.
fn summed_words(check: bool, n: usize) -> usize
    ensures { (result ≡ chosen check n) × (result ≤ n) }
{
    if check { n } else { 0 }
}

// The check word that sealing the n data words at the start of the slice would write.
fn sealed_word(
    block: &[u64],
    n: usize,
    sequence: bool,
    check: bool,
    number: u16,
) -> Result<u64, Unsealed>
    ensures { MatchResult result
        (λ word. (block_seal_refusal block.now n sequence check number ≡ 0) × (word ≡ check_word sequence check (logical_sum (take n block.now)) number))
        (λ why. block_seal_refusal block.now n sequence check number ≡ unsealed_number why) }
{
    let e = extra(sequence, check) as usize;
    if LAST_NUMBER < number || block.len() < n || block.len() - n < e {
        return Err(Unsealed::Argument);
    }
    let k = summed_words(check, n);
    let s = logical_sum(&block[..k]);
    if !s.fits {
        return Err(Unsealed::TallWord);
    }
    Ok(check_word(sequence, check, s.sum, number))
}

// Seals the block of n data words at the start of the slice: the check word, if one is chosen, is written after them.
// No other word changes, and a refusal changes none.
pub fn seal(block: &mut [u64], n: usize, sequence: bool, check: bool, number: u16) -> u8
    ensures value { result ≡ block_seal_refusal block.old n sequence check number }
    ensures block_after { block.new ≡ sealed_block block.old n sequence check number }
{
    match sealed_word(&block[..], n, sequence, check, number) {
        Ok(word) => {
            if sequence | check {
                block[n] = word;
            }
            0
        }
        Err(why) => u8::from(why),
    }
}

// A refusal of judging, which finds nothing.
fn refused(refusal: u8) -> Judged
    ensures { result ≡ refused_block refusal }
{
    Judged {
        refusal,
        found: not_checked(),
    }
}

// Judges a block as delivered, its check word last if one is chosen, by the number it is due. The data words are summed whatever is chosen.
pub fn judge(block: &[u64], sequence: bool, check: bool, number: u16) -> Judged
    ensures { result ≡ judged_block block.now sequence check number }
{
    if LAST_NUMBER < number {
        return refused(1);
    }
    let e = extra(sequence, check) as usize;
    let n = block.len().saturating_sub(e);
    let (words, last) = block.split_at(n);
    let s = logical_sum(words);
    if !(s.fits & are_words(last)) {
        return refused(2);
    }
    if n == 0 {
        return refused(13);
    }
    let w = last.first().copied().unwrap_or(0);
    Judged {
        refusal: 0,
        found: check_of(sequence, check, s.sum, number, w),
    }
}
