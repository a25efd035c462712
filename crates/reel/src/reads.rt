// What the blocks and marks of a reel come to.
ghost use Rattle.std.specs.Prelude.{◌≡◌};
ghost use Rattle.pack.specs.Answers.{answer_by};
ghost use Rattle.reel.specs.Steps.{brought_by, met_mark_by, got_by};

use crate::turns::{FILE_MARK, GOOD, READ, ended};
use pack::{AnyAnswer, AnyCall, State};

// The read of a block, and its good end with the block's words. After a block that was refused the read is still unanswered: the ask is then refused,
// which changes nothing, and the report ends that read.
pub fn brought(s: State, area: &mut [u64], words: &[u64]) -> AnyAnswer
    ensures { answer_by result area.new ≡ brought_by s area.old words.now }
{
    ended(s, area, READ, GOOD, words)
}

// The read that ends with a mark.
pub fn met_mark(s: State, area: &mut [u64]) -> AnyAnswer
    ensures { answer_by result area.new ≡ met_mark_by s area.old }
{
    ended(s, area, READ, FILE_MARK, &[])
}

// The get of a record.
pub fn got(s: State, area: &mut [u64]) -> AnyAnswer
    ensures { answer_by result area.new ≡ got_by s area.old }
{
    pack::answer(s, area, AnyCall::Get(0), &[])
}
