// A block as bytes, five a word and the highest first, as frames have it: sealed with its check word, and checked by it as delivered.
// The words of a block are those of the crate `block`. It knows nothing of files, buffers or frames.
#![tactic(auto)]

mod bytes;
mod fields;

ghost use Rattle.std.specs.Prelude.{◌≡◌, length};
ghost use Rattle.block_bytes.specs.ByteBlocks.{seal_refusal, sealed_bytes, verdict_on, found_after};

use block::{judge, seal};
use bytes::{found_bytes, word_bytes, words_in};
use codec::put_bytes;
use fields::{argument_wrong, has_check, has_sequence};
use word::extra;

// The most data words of a block, and the room for its words.
const DATA: usize = 1024;

const ROOM: usize = DATA + 1;

// The bytes of a word, and of what a check finds.
const WORD: usize = 5;

const FOUND: usize = 12;

// What checking a block tells: the refusal, or 0 and then the error.
// It is no Result because the C interface hands out both numbers.
#[derive(Clone, Copy)]
pub struct Verdict {
    pub refusal: u8,
    pub error: u8,
}

// Seals the block: the last five bytes become the check word of the data words before them, if a field is chosen (4 sequence, 8 check sums). No
// other byte changes, and a refusal changes none.
pub fn seal_bytes(block: &mut [u8], fields: u32, number: u32) -> u8
    ensures value { result ≡ seal_refusal block.old fields number }
    ensures block_after { block.new ≡ sealed_bytes block.old fields number }
{
    if argument_wrong(block.len(), fields, number) {
        return 1;
    }
    let sequence = has_sequence(fields);
    let check = has_check(fields);
    let e = extra(sequence, check) as usize;
    let mut words = [0u64; ROOM];
    let k = words_in(&block[..], &mut words);
    if k < 1 + e {
        return 13;
    }
    let n = k - e;
    let refusal = seal(&mut words[..k], n, sequence, check, number as u16);
    if refusal != 0 {
        return refusal;
    }
    if e == 0 {
        return 0;
    }
    put_bytes(block, n * WORD, &word_bytes(words[n]));
    0
}

// Checks the block as delivered, its check word last if a field is chosen. What was found goes to the front of `found`, the rest of which stays; a
// refusal changes no byte.
pub fn check_bytes(block: &[u8], fields: u32, number: u32, found: &mut [u8]) -> Verdict
    ensures value { result ≡ verdict_on block.now fields number (length found.old) }
    ensures found_after { found.new ≡ found_after block.now fields number found.old }
{
    if argument_wrong(block.len(), fields, number) | (found.len() < FOUND) {
        return Verdict {
            refusal: 1,
            error: 0,
        };
    }
    let mut words = [0u64; ROOM];
    let k = words_in(block, &mut words);
    let j = judge(
        &words[..k],
        has_sequence(fields),
        has_check(fields),
        number as u16,
    );
    if j.refusal != 0 {
        return Verdict {
            refusal: j.refusal,
            error: 0,
        };
    }
    put_bytes(found, 0, &found_bytes(j.found));
    Verdict {
        refusal: 0,
        error: j.found.error,
    }
}
