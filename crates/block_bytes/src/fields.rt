// The numbers that come with a block: which fields its check word has, and whether they are in their ranges.
ghost use Rattle.std.specs.Prelude.{◌≡◌};
ghost use Rattle.block_bytes.specs.ByteBlocks.{has_sequence, has_check, other_fields, argument_wrong};

use crate::{DATA, WORD};
use word::{BLOCK_NUMBERS, extra};

// Whether sequence numbers are chosen.
pub fn has_sequence(fields: u32) -> bool
    ensures { result ≡ has_sequence fields }
{
    fields / 4 % 2 == 1
}

// Whether check sums are chosen.
pub fn has_check(fields: u32) -> bool
    ensures { result ≡ has_check fields }
{
    fields / 8 % 2 == 1
}

// Whether the number names anything else.
fn other_fields(fields: u32) -> bool
    ensures { result ≡ other_fields fields }
{
    (12 < fields) | (fields % 4 != 0)
}

// Whether a block of so many bytes, its fields or its number is outside its range.
pub fn argument_wrong(bytes: usize, fields: u32, number: u32) -> bool
    ensures { result ≡ argument_wrong bytes fields number }
{
    let sequence = has_sequence(fields);
    let check = has_check(fields);
    let e = extra(sequence, check) as usize;
    let most = WORD * (DATA + e);
    (bytes % WORD != 0) | ((most < bytes) | (!(number < BLOCK_NUMBERS) | other_fields(fields)))
}
