// Sums of words, a carry out of the top added back at the bottom.
ghost use Rattle.std.specs.Prelude.{◌≡◌, ◌+◌, ◌-◌, ◌/◌, ◌%◌, ◌^◌, ◌<◌, ◌≤◌, length, ◌==◌};
ghost use Rattle.area.specs.Lists.{all_of};
ghost use Rattle.area.specs.Parts.{is_word};
ghost use Rattle.word.specs.Sums.{carry_back, folded as fold, summed};
ghost use Rattle.word.specs.Totals.{total, reduced};

// What one pass over words tells: whether every one is below 2^36, and then their logical sum (else 0).
// It is no Option because the crates above read its two fields.
#[derive(Clone, Copy)]
pub struct Summed {
    pub fits: bool,
    pub sum: u64,
}

// The plain total of some words, wrapped at 64 bits, and all of them or'ed.
#[derive(Clone, Copy)]
struct Tally {
    total: u64,
    any: u64,
}

// How many words are totalled before the carries are put back: 2^20 words of 36 bits fit 64.
const STRETCH: usize = 1 << 20;

// Two numbers of k bits added, a carry out of the top added back at the bottom.
fn carry_back(k: u32, a: u64, b: u64) -> u64
    requires { (k < 64) × (a < 2 ^ k) × (b < 2 ^ k) }
    ensures { (result ≡ carry_back k a b) × (result < 2 ^ k) }
{
    let s = a + b;
    (s & ((1u64 << k) - 1)) + (s >> k)
}

// Every carry of a plain total put back at once: what is left from 1 to 2^36 - 1, and 0 for 0.
fn put_back(t: u64) -> u64
    ensures { (result ≡ reduced (2 ^ 36 - 1) t) × (result < 2 ^ 36) }
{
    if t == 0 {
        return 0;
    }
    (t - 1) % 0xf_ffff_ffff + 1
}

// The total and the or of all words in one pass. The total may wrap where a word is 2^36 or more.
fn tallied(words: &[u64]) -> Tally
    ensures { (result.total ≡ total words.now % 2 ^ 64) × ((result.any / 2 ^ 36 == 0) ≡ all_of is_word words.now) }
{
    let mut total: u64 = 0;
    let mut any: u64 = 0;
    for word in words {
        total = total.wrapping_add(*word);
        any |= *word;
    }
    Tally { total, any }
}

// The logical sum of at most a stretch of words, the carries put back once.
fn stretch_sum(words: &[u64]) -> Summed
    requires { length words.now ≤ 2 ^ 20 }
    ensures { result ≡ summed words.now }
{
    let t = tallied(words);
    if t.any >> 36 == 0 {
        let sum = put_back(t.total);
        return Summed { fits: true, sum };
    }
    Summed {
        fits: false,
        sum: 0,
    }
}

// The logical sum of words, and whether every one is below 2^36, in one pass over them.
pub fn logical_sum(words: &[u64]) -> Summed
    ensures { result ≡ summed words.now }
{
    let mut sum: u64 = 0;
    for stretch in words.chunks(STRETCH) {
        let part = stretch_sum(stretch);
        if !part.fits {
            return Summed {
                fits: false,
                sum: 0,
            };
        }
        sum = carry_back(36, sum, part.sum);
    }
    Summed { fits: true, sum }
}

// The two 18-bit halves of a word added the same way. Bits above the 36 have no part in it.
pub fn folded(sum: u64) -> u64
    ensures { (result ≡ fold sum) × (result < 2 ^ 18) }
{
    carry_back(18, (sum >> 18) & 0x3_ffff, sum & 0x3_ffff)
}
