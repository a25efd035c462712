// The file is opened, and after a mark closed and opened again.
ghost use Rattle.std.specs.Prelude.{◌≡◌, []};
ghost use Rattle.pack.specs.Answers.{answer_by, call_of};
ghost use Rattle.reel.specs.Steps.{opens, begun_by, again_by};

use crate::Options;
use crate::turns::in_turn;
use pack::{AnyAnswer, AnyCall, Masks, State};

// The open of file 0 on unit 0 of channel 0.
fn opening(o: Options) -> AnyCall
    ensures { call_of result [] ≡ opens o }
{
    AnyCall::Open {
        file: 0,
        channel: 0,
        unit: 0,
        flags: o.flags,
        size: o.size,
        rlen: o.rlen,
    }
}

// A fresh start of the pool with unit 0 of channel 0, and the open. It is refused as the open is.
pub fn begun(area: &mut [u64], o: Options) -> AnyAnswer
    ensures { answer_by result area.new ≡ begun_by area.old o }
{
    let masks = Masks {
        a: 1,
        b: 0,
        c: 0,
        d: 0,
        e: 0,
    };
    let start = AnyCall::Fresh {
        m: 1,
        w: 1024,
        masks,
    };
    in_turn(pack::before_start(), area, start, opening(o), &[])
}

// A close, and the open again: block numbers start at 1.
pub fn again(s: State, area: &mut [u64], o: Options) -> AnyAnswer
    ensures { answer_by result area.new ≡ again_by s area.old o }
{
    in_turn(s, area, AnyCall::Close(0), opening(o), &[])
}
