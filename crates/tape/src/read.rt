// The words of a block, out of its bytes: only the low six bits of each count.
ghost use Rattle.std.specs.Prelude.{◌≡◌, cond, ◌+◌, ◌%◌, ◌≤◌, ◌<◌, length};
ghost use Rattle.tape.specs.Characters.{word_at};
ghost use Rattle.tape.specs.Reading.{words_fit, words_read};

// The six-bit character that a byte holds.
fn character(b: u8) -> u64
    ensures { (result ≡ b % 64) × (result < 64) }
{
    (b % 64) as u64
}

// The word of the six bytes from a place on, leftmost first.
fn word_at(image: &[u8], at: usize) -> u64
    requires { at + 6 ≤ length image.now }
    ensures { result ≡ word_at image.now at }
{
    let a = character(image[at]);
    let b = character(image[at + 1]);
    let c = character(image[at + 2]);
    let d = character(image[at + 3]);
    let e = character(image[at + 4]);
    let f = character(image[at + 5]);
    ((((a * 64 + b) * 64 + c) * 64 + d) * 64 + e) * 64 + f
}

// Whether n words stand in the image from byte `place` on and have room in an area from word `at` on.
fn words_fit(bytes: usize, place: usize, n: usize, room: usize, at: usize) -> bool
    ensures { result ≡ words_fit bytes place n room at }
{
    if bytes < place || room < at {
        return false;
    }
    n <= (bytes - place) / 6 && n <= room - at
}

// Puts the n words that stand in the image from byte `place` on into the area from word `at` on, and says whether they are there and fit.
// If not, the area stays as it was; else no other word of it changes.
pub fn block_words(image: &[u8], place: usize, n: usize, area: &mut [u64], at: usize) -> bool
    ensures value { result ≡ words_fit (length image.now) place n (length area.old) at }
    ensures area_after { area.new ≡ words_read image.now place n area.old at }
{
    if !words_fit(image.len(), place, n, area.len(), at) {
        return false;
    }
    for i in 0..n {
        area[at + i] = word_at(image, place + 6 * i);
    }
    true
}
