// The words of the area as bytes of an image, eight each, lowest first.
ghost use Rattle.std.specs.Prelude.{◌≡◌, ◌+◌, ◌*◌, ◌≤◌, length, drop};
ghost use Rattle.area.specs.Parts.{paste};
ghost use Rattle.codec.specs.Rows.{eight_bytes};
ghost use Rattle.state_image.specs.Images.{image_words, words_codec};

use codec::{put_bytes, word_at, word_bytes};

// The program's 4,096 area words, and the bytes of a word.
pub const WORDS: usize = 4096;

const WORD: usize = 8;

pub const ALL_WORDS: usize = WORDS * WORD;

// Puts the bytes of a word into the area from byte `at` on.
fn put_word(out: &mut [u8], at: usize, x: u64)
    requires { at + 8 ≤ length out.old }
    ensures { out.new ≡ paste at (eight_bytes x) out.old }
{
    let bytes = word_bytes(x);
    put_bytes(out, at, &bytes);
}

// Puts the bytes of the words into the area from byte `at` on.
pub fn put_words(out: &mut [u8], at: usize, area: &[u64])
    requires { (at + words_codec.size ≤ length out.old) × (length area.now ≡ image_words) }
    ensures { out.new ≡ paste at (words_codec.write area.now) out.old }
{
    let mut to = at;
    for word in area {
        put_word(out, to, *word);
        to += WORD;
    }
}

// The words from byte `start` on, into an area of as many.
pub fn read_words(b: &[u8], start: usize, area: &mut [u64])
    requires { (start + words_codec.size ≤ length b.now) × (length area.old ≡ image_words) }
    ensures { area.new ≡ words_codec.read (drop start b.now) }
{
    let mut at = start;
    for word in area.iter_mut() {
        let x = word_at(b, at);
        *word = x;
        at += WORD;
    }
}
