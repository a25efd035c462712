// The thirteen calls in one function: which of them, and its numbers, are a value.
ghost use Rattle.std.specs.Prelude.{◌≡◌};
ghost use Rattle.area.specs.Parts.{part_of};
ghost use Rattle.pack.specs.Calls.{answer_of};
ghost use Rattle.pack.specs.Answers.{call_of, answer_by, plain_answer, ask_answer, report_answer, get_answer, return_answer, running_answer};

use crate::{Adds, AnyAnswer, AnyCall};
use area::part;
use file_input::{got_count, got_start};
use pack_open::{close, open};
use pack_record::{Getting, get, put, seal, skip};
use pack_request::{Asking, Reporting, ask, report};
use pack_routine::{Ran, give_back, what_runs};
use pack_start::{freeze, fresh, thaw};
use state::{Called, State};

// The answer of a call that adds nothing.
fn plain(r: Called) -> AnyAnswer
    ensures { result ≡ plain_answer r }
{
    let state = r.state;
    AnyAnswer {
        refusal: r.refusal,
        adds: Adds::Nothing,
        start: 0,
        count: 0,
        state,
    }
}

// The answer of an ask.
fn asked(r: Asking) -> AnyAnswer
    ensures { result ≡ ask_answer r }
{
    let state = r.state;
    let adds = Adds::Working(r.working);
    AnyAnswer {
        refusal: r.refusal,
        adds,
        start: 0,
        count: 0,
        state,
    }
}

// The answer of a report: the block that it shows is a part of the area after it.
fn told(r: Reporting) -> AnyAnswer
    ensures { result ≡ report_answer r }
{
    let state = r.state;
    let result = r.result;
    let delivery = r.delivery;
    let working = r.working;
    let adds = Adds::Reported {
        result,
        delivery,
        working,
    };
    AnyAnswer {
        refusal: r.refusal,
        adds,
        start: r.start,
        count: r.count,
        state,
    }
}

// The answer of a get: its record or leftover is a part of the area.
fn given(r: Getting) -> AnyAnswer
    ensures { result ≡ get_answer r }
{
    let state = r.state;
    let g = r.got;
    let start = got_start(g);
    let count = got_count(g);
    let adds = Adds::Found(g);
    AnyAnswer {
        refusal: r.refusal,
        adds,
        start,
        count,
        state,
    }
}

// The answer of a return.
fn returned(r: Ran) -> AnyAnswer
    ensures { result ≡ return_answer r }
{
    let state = r.state;
    let entered = r.entered;
    let program = r.program;
    let adds = Adds::Returned { entered, program };
    AnyAnswer {
        refusal: r.refusal,
        adds,
        start: 0,
        count: 0,
        state,
    }
}

// The answer of what runs.
fn runs(r: Ran) -> AnyAnswer
    ensures { result ≡ running_answer r }
{
    let state = r.state;
    let program = r.program;
    let adds = Adds::Runs(program);
    AnyAnswer {
        refusal: r.refusal,
        adds,
        start: 0,
        count: 0,
        state,
    }
}

// Makes a call: the one of the thirteen that the value names, with its numbers, the lent area and, for a report and a put, the words. What it answers, the
// words that the answer shows, the state and every word of the area after it are those of `answer_of`. A refusal gives the number alone.
pub fn answer(s: State, area: &mut [u64], call: AnyCall, words: &[u64]) -> AnyAnswer
    ensures { answer_by result area.new ≡ answer_of s area.old (call_of call words.now) }
{
    match call {
        AnyCall::Fresh { m, w, masks } => plain(fresh(s, &area[..], m, w, masks)),
        AnyCall::Open {
            file,
            channel,
            unit,
            flags,
            size,
            rlen,
        } => plain(open(s, file, channel, unit, flags, size, rlen)),
        AnyCall::Close(file) => plain(close(s, file)),
        AnyCall::Ask {
            file,
            op,
            priority,
            naming,
        } => asked(ask(s, file, op, priority, naming)),
        AnyCall::Report {
            channel,
            unit,
            outcome,
            length,
        } => told(report(s, area, channel, unit, outcome, length, words)),
        AnyCall::Get(file) => given(get(s, &area[..], file)),
        AnyCall::Put(file) => plain(put(s, area, file, words)),
        AnyCall::Seal(file) => plain(seal(s, area, file)),
        AnyCall::Skip(file) => plain(skip(s, file)),
        AnyCall::Freeze => plain(freeze(s)),
        AnyCall::Thaw => plain(thaw(s)),
        AnyCall::Return => returned(give_back(s)),
        AnyCall::Running => runs(what_runs(s)),
    }
}

// The words that an answer shows, as a part of the area that its call left.
pub fn shown_words<'a>(area: &'a [u64], r: AnyAnswer) -> &'a [u64]
    ensures { result.now ≡ (answer_by r area.now).shows }
{
    let at = r.start;
    let n = r.count;
    part(area, at, n)
}
