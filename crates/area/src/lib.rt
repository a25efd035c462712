// Words in a lent area: a part of it, words copied into a part, and whether words are below 2^36; and a row of the refusal table.
// Here too is the one home of the general laws on lists that the crates above cite.
// It knows nothing of blocks, buffers, files or calls.
#![tactic(auto)]

mod refusals;

ghost use Rattle.area.specs.Lists.{all_of};
ghost use Rattle.area.specs.Parts.{is_word, part_of, paste_fits, pasted_in};
ghost use Rattle.std.specs.Prelude.{◌≡◌};

pub use refusals::row;

// Whether every word of a slice is below 2^36. All are or'ed, and the bits above are looked at once.
pub fn are_words(words: &[u64]) -> bool
    ensures { result ≡ all_of is_word words.now }
{
    let mut any: u64 = 0;
    for word in words {
        any |= *word;
    }
    any >> 36 == 0
}

// The part of the area that begins at word `at` and has n words, or as many of them as the area has.
pub fn part(area: &[u64], at: usize, n: usize) -> &[u64]
    ensures { result.now ≡ part_of at n area.now }
{
    let rest = &area[at.min(area.len())..];
    &rest[..n.min(rest.len())]
}

// Whether every word of that part is below 2^36.
pub fn part_are_words(area: &[u64], at: usize, n: usize) -> bool
    ensures { result ≡ all_of is_word (part_of at n area.now) }
{
    are_words(part(area, at, n))
}

// Puts the elements into the part of the area that begins at place `at` and is as long as they are, and says whether the area has that part.
// Nothing outside the part changes.
pub fn copy_in<T: Copy>(area: &mut [T], at: usize, words: &[T]) -> bool
    ensures value { result ≡ paste_fits at words.now area.old }
    ensures area_after { area.new ≡ pasted_in at words.now area.old }
{
    if area.len() < at {
        return false;
    }
    if area.len() - at < words.len() {
        return false;
    }
    let end = at + words.len();
    area[at..end].copy_from_slice(words);
    true
}
