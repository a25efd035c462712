// Values as bytes of an image: the laws of every codec, once; numbers read from their places in a lent byte area, bytes put in theirs, and bytes compared.
// It knows nothing of states.
#![tactic(auto)]

mod rows;

ghost use Rattle.area.specs.Parts.{pasted_in};
ghost use Rattle.codec.specs.Codecs.{same};
ghost use Rattle.std.specs.Prelude.{◌≡◌};

use area::copy_in;
pub use rows::{four_at, two_at, word_at, word_bytes};

// Puts bytes into a lent area from byte `at` on; bytes that do not fit there change nothing.
pub fn put_bytes(out: &mut [u8], at: usize, bytes: &[u8])
    ensures { out.new ≡ pasted_in at bytes.now out.old }
{
    copy_in(out, at, bytes);
}

// Whether two runs of bytes are the same.
pub fn are_same(a: &[u8], b: &[u8]) -> bool
    ensures { result ≡ same a.now b.now }
{
    a == b
}
