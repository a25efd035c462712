// What a text of records and marks comes to.
ghost use Rattle.std.specs.Prelude.{◌≡◌};
ghost use Rattle.pack.specs.Answers.{answer_by};
ghost use Rattle.reel.specs.Steps.{put_by, sealed_by, sent_by, sent_mark_by};

use crate::turns::{GOOD, MARK, WRITE, ended};
use pack::{AnyAnswer, AnyCall, State};

// The put of a record.
pub fn put(s: State, area: &mut [u64], words: &[u64]) -> AnyAnswer
    ensures { answer_by result area.new ≡ put_by s area.old words.now }
{
    pack::answer(s, area, AnyCall::Put(0), words)
}

// The seal of a block that has begun; refused 9 if none has.
pub fn sealed(s: State, area: &mut [u64]) -> AnyAnswer
    ensures { answer_by result area.new ≡ sealed_by s area.old }
{
    pack::answer(s, area, AnyCall::Seal(0), &[])
}

// The write of a full block, and its good end: the answer shows the block, check word last. Where no block is full it is refused 11, since the ask
// before it was refused.
pub fn sent(s: State, area: &mut [u64]) -> AnyAnswer
    ensures { answer_by result area.new ≡ sent_by s area.old }
{
    ended(s, area, WRITE, GOOD, &[])
}

// The write of a mark, and its good end.
pub fn sent_mark(s: State, area: &mut [u64]) -> AnyAnswer
    ensures { answer_by result area.new ≡ sent_mark_by s area.old }
{
    ended(s, area, MARK, GOOD, &[])
}
