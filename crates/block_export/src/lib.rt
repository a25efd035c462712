// Sealing and judging a block of lent 64-bit places, on numbers and slices alone, for measuring (`./bench`). Each is one call of the crate `block`. The
// crate `block_export_c` has them as functions that Rust and C link.
#![tactic(auto)]

ghost use Rattle.std.specs.Prelude.{◌≡◌};
ghost use Rattle.block.specs.Blocks.{block_seal_refusal, sealed_block};
ghost use Rattle.block_export.specs.Exports.{has_sequence, has_check, judged_number};

// Seals the block of n data words at the front of the slice, by the chosen fields: 1 sequence, 2 check sums. The answer is the refusal, 0 for none.
// The check word alone is written, and a refusal writes nothing.
pub fn block_seal(block: &mut [u64], n: usize, fields: u8, number: u16) -> u8
    ensures value { result ≡ block_seal_refusal block.old n (has_sequence fields) (has_check fields) number }
    ensures block_after { block.new ≡ sealed_block block.old n (has_sequence fields) (has_check fields) number }
{
    block::seal(block, n, fields % 2 == 1, fields / 2 % 2 == 1, number)
}

// Judges a block as delivered, its check word last if a field is chosen. The answer is 256 times the refusal, and the error.
pub fn block_judge(block: &[u64], fields: u8, number: u16) -> u16
    ensures { result ≡ judged_number block.now fields number }
{
    let j = block::judge(block, fields % 2 == 1, fields / 2 % 2 == 1, number);
    (j.refusal as u16) * 256 + (j.found.error as u16)
}
