// A block or a mark written into lent bytes: lengths, and six bytes for a word, each with its parity.
ghost use Rattle.std.specs.Prelude.{◌≡◌, cond, eqb, None, Some, ◌+◌, ◌*◌, ◌%◌, ◌/◌, ◌^◌, ◌≤◌, ◌<◌, leb, length};
ghost use Rattle.area.specs.Parts.{paste};
ghost use Rattle.tape.specs.Lengths.{length_bytes};
ghost use Rattle.tape.specs.Characters.{ones, parity_of, with_parity, word_bytes, data_bytes};
ghost use Rattle.tape.specs.Writing.{block_refusal, block_written, mark_refusal, mark_written};

// The most words of a block.
const WORDS: usize = 1024;

// The low byte of a number.
fn low(x: usize) -> u8
    ensures { result ≡ x % 256 }
{
    (x % 256) as u8
}

// The ones among the six bits of a character.
fn ones_of(c: u8) -> u8
    ensures { (result ≡ ones c) × (result < 16) }
{
    c % 2 + c / 2 % 2 + c / 4 % 2 + c / 8 % 2 + c / 16 % 2 + c / 32
}

// The parity of a character: odd, or even for BCD.
fn parity_of(bcd: bool, c: u8) -> u8
    ensures { (result ≡ parity_of bcd c) × (result < 2) }
{
    let n = ones_of(c);
    if bcd { n % 2 } else { (n + 1) % 2 }
}

// The low six bits of a number as a byte, with parity in the next bit.
fn with_parity(bcd: bool, x: u64) -> u8
    ensures { result ≡ with_parity bcd (x % 64) }
{
    let c = (x % 64) as u8;
    c + 64 * parity_of(bcd, c)
}

// The four bytes of a length, the lowest first.
fn write_length(area: &mut [u8], at: usize, n: usize)
    requires { at + 4 ≤ length area.old }
    ensures { area.new ≡ paste at (length_bytes n) area.old }
{
    area[at] = low(n);
    area[at + 1] = low(n >> 8);
    area[at + 2] = low(n >> 16);
    area[at + 3] = low(n >> 24);
}

// The six bytes of a word, leftmost character first.
fn write_word(area: &mut [u8], at: usize, bcd: bool, w: u64)
    requires { at + 6 ≤ length area.old }
    ensures { area.new ≡ paste at (word_bytes bcd w) area.old }
{
    area[at] = with_parity(bcd, w >> 30);
    area[at + 1] = with_parity(bcd, w >> 24);
    area[at + 2] = with_parity(bcd, w >> 18);
    area[at + 3] = with_parity(bcd, w >> 12);
    area[at + 4] = with_parity(bcd, w >> 6);
    area[at + 5] = with_parity(bcd, w);
}

// The bytes of words, one after the other.
fn write_words(area: &mut [u8], at: usize, bcd: bool, words: &[u64])
    requires { at + 6 * length words.now ≤ length area.old }
    ensures { area.new ≡ paste at (data_bytes bcd words.now) area.old }
{
    for (i, word) in words.iter().enumerate() {
        write_word(area, at + 6 * i, bcd, *word);
    }
}

// Whether a record of n bytes has room in `len` bytes from a place on.
fn has_room(len: usize, at: usize, n: usize) -> bool
    ensures { result ≡ leb (at + n) len }
{
    at <= len && n <= len - at
}

// Why a block cannot be written into `len` bytes from a place on, if it cannot.
fn block_refusal(len: usize, at: usize, words: &[u64]) -> Option<u8>
    ensures { result ≡ cond (eqb (block_refusal len at words.now) 0) None (Some (block_refusal len at words.now)) }
{
    if !area::are_words(words) {
        return Some(2);
    }
    let n = words.len();
    if n == 0 || WORDS < n || !has_room(len, at, 6 * n + 8) {
        return Some(13);
    }
    None
}

// Writes the record of a block into the bytes from a place on, with parity odd, or even for BCD. Refused 2 if a word is 2^36 or more, and
// 13 unless the block has 1 to 1,024 words and its record has room: then no byte changes; else only those of the record.
pub fn write_block(area: &mut [u8], at: usize, bcd: bool, words: &[u64]) -> u8
    ensures value { result ≡ block_refusal (length area.old) at words.now }
    ensures area_after { area.new ≡ block_written at bcd words.now area.old }
{
    if let Some(refusal) = block_refusal(area.len(), at, words) {
        return refusal;
    }
    let n = 6 * words.len();
    write_length(area, at, n);
    write_words(area, at + 4, bcd, words);
    write_length(area, at + 4 + n, n);
    0
}

// Writes a tape mark into the bytes from a place on. Refused 13 if it has no room: then no byte changes.
pub fn write_mark(area: &mut [u8], at: usize) -> u8
    ensures value { result ≡ mark_refusal (length area.old) at }
    ensures area_after { area.new ≡ mark_written at area.old }
{
    if !has_room(area.len(), at, 4) {
        return 13;
    }
    write_length(area, at, 0);
    0
}
