// The calls, each on what it concerns, one file and for some a channel and the post of a unit, or the routines: those that move no words, and those that
// move words in the lent area or show them.
// `unsound` is what is known of the state, m and w are its pool, `free` its free mask.
ghost use Rattle.std.specs.Prelude.{◌≡◌, ◌*◌, ltb};
ghost use Rattle.session_reply.specs.Replies.{answer_or, got_answer, report_answer};
ghost use Rattle.session_reply.specs.Changes.{quiet_told, open_told, close_told, asked_post, ask_change_on, skip_told, is_named_answer, reported_post, report_change_on, report_area_on, get_told, put_told, put_area_on, seal_told, seal_area_on, return_told, running_told};

use crate::{Change, RoutineTold, Told};
use call_open::{FLAGS, close_on, open_on, wish_of};
use call_record::{get_on, put_on, seal_on, skip_on};
use call_request::{answers_request, ask_on, report_on};
use channel::{Channel, UNITS};
use file::File;
use file_input::{Got, got_count, got_number, got_start};
use pack_routine::{return_on, running_on};
use pool::{FILES, free_in, is_bound};
use routines::{Naming, Post, Routines, due_of, is_due, nothing_due};
use session_frame::{Answer, AskFrame, OpenFrame, ReportFrame};
use state::CHANNELS;
use word::Checked;

// The answer of an accepted call, or its refusal.
pub fn answer_or(refusal: u8, a: Answer) -> Answer
    ensures { result ≡ answer_or refusal a }
{
    if refusal == 0 {
        return a;
    }
    Answer::Refused(refusal)
}

// A call whose answer adds nothing.
pub fn quiet(refusal: u8, f: File) -> Told
    ensures { result ≡ quiet_told refusal f }
{
    Told {
        answer: answer_or(refusal, Answer::Done),
        start: 0,
        count: 0,
        file: f,
    }
}

pub fn opened(
    unsound: bool,
    w: u16,
    free: u32,
    files: [File; FILES],
    f: File,
    c: Channel,
    q: OpenFrame,
) -> Told
    ensures { result ≡ open_told unsound w free files f c q }
{
    let wrong = (FILES <= q.file as usize)
        | ((CHANNELS <= q.channel as usize)
            | ((UNITS <= q.unit as usize) | ((FLAGS < q.flags) | unsound)));
    let bound = is_bound(files, q.channel, q.unit);
    let found = free_in(free);
    let wish = wish_of(q.channel, q.unit, q.flags, q.size, q.rlen);
    let x = open_on(wrong, bound, f, c, found, w, wish);
    quiet(x.refusal, x.file)
}

pub fn closed(unsound: bool, f: File, c: Channel, file: u8) -> Told
    ensures { result ≡ close_told unsound f c file }
{
    let x = close_on((FILES <= file as usize) | unsound, f, c);
    quiet(x.refusal, x.file)
}

// The post of a unit after an ask: its request names a routine, or none.
fn asked_post(refusal: u8, p: Post, naming: Naming) -> Post
    ensures { result ≡ asked_post refusal p naming }
{
    if refusal != 0 {
        return p;
    }
    Post {
        named: due_of(naming),
        ..p
    }
}

pub fn asked(unsound: bool, frozen: bool, f: File, c: Channel, p: Post, q: AskFrame) -> Change
    ensures { result ≡ ask_change_on unsound frozen f c p q }
{
    let waits = is_due(p.due);
    let wrong = unsound | (FILES <= q.file as usize);
    let x = ask_on(wrong, f, c, q.op, q.priority, q.naming, waits, frozen);
    let working = x.working;
    Change {
        answer: answer_or(x.refusal, Answer::Asked { working }),
        start: 0,
        count: 0,
        file: x.file,
        channel: x.channel,
        post: asked_post(x.refusal, p, q.naming),
        looks: false,
    }
}

pub fn skipped(unsound: bool, f: File, file: u8) -> Told
    ensures { result ≡ skip_told unsound f file }
{
    let x = skip_on((FILES <= file as usize) | unsound, f);
    quiet(x.refusal, x.file)
}

// Whether an area of n words is too short for the pool.
fn is_short(m: u8, w: u16, n: usize) -> bool
    ensures { result ≡ ltb n (m * w) }
{
    n < (m as usize) * (w as usize)
}

// The answer of a report: with what was found if it delivers a block.
fn report_answer(res: u8, delivery: Option<Checked>, working: u8) -> Answer
    ensures { result ≡ report_answer res delivery working }
{
    match delivery {
        None => Answer::Reported {
            result: res,
            working,
        },
        Some(found) => Answer::Delivered {
            result: res,
            found,
            working,
        },
    }
}

// Whether a report with that result answers a request that names a routine.
fn is_named_answer(res: u8, p: Post) -> bool
    ensures { result ≡ is_named_answer res p }
{
    answers_request(res) & is_due(p.named)
}

// The post of a unit after a report: the routine that the answered request names waits.
fn reported_post(res: u8, p: Post) -> Post
    ensures { result ≡ reported_post res p }
{
    if is_named_answer(res, p) {
        return Post {
            named: nothing_due(),
            due: p.named,
        };
    }
    p
}

pub fn reported(
    unsound: bool,
    m: u8,
    w: u16,
    frozen: bool,
    f: File,
    c: Channel,
    p: Post,
    q: ReportFrame,
    area: &mut [u64],
    words: &[u64],
) -> Change
    ensures value { result ≡ report_change_on unsound m w frozen f c p q area.old words.now }
    ensures area_after { area.new ≡ report_area_on unsound m w f c q area.old words.now }
{
    let short = is_short(m, w, area.len());
    let wrong = unsound | (short | (CHANNELS <= q.channel as usize));
    let x = report_on(
        wrong, f, c, q.unit, q.outcome, q.length, w, frozen, area, words,
    );
    let told = report_answer(x.result, x.delivery, x.working);
    Change {
        answer: answer_or(x.refusal, told),
        start: x.start,
        count: x.count,
        file: x.file,
        channel: x.channel,
        post: reported_post(x.result, p),
        looks: is_named_answer(x.result, p),
    }
}

// The answer that says what get found.
fn got_answer(g: Got) -> Answer
    ensures { result ≡ got_answer g }
{
    let number = got_number(g);
    match g {
        Got::Error(found) => Answer::GotError { number, found },
        _ => Answer::Got(number),
    }
}

pub fn got(unsound: bool, m: u8, w: u16, f: File, file: u8, area: &[u64]) -> Told
    ensures { result ≡ get_told unsound m w f file area.now }
{
    let short = is_short(m, w, area.len());
    let x = get_on((FILES <= file as usize) | (short | unsound), f, w, area);
    let told = got_answer(x.got);
    Told {
        answer: answer_or(x.refusal, told),
        start: got_start(x.got),
        count: got_count(x.got),
        file: x.file,
    }
}

pub fn filled(
    unsound: bool,
    m: u8,
    w: u16,
    f: File,
    file: u8,
    area: &mut [u64],
    words: &[u64],
) -> Told
    ensures value { result ≡ put_told unsound m w f file area.old words.now }
    ensures area_after { area.new ≡ put_area_on unsound m w f file area.old words.now }
{
    let short = is_short(m, w, area.len());
    let x = put_on(
        (FILES <= file as usize) | (short | unsound),
        f,
        w,
        area,
        words,
    );
    quiet(x.refusal, x.file)
}

pub fn sealed(unsound: bool, m: u8, w: u16, f: File, file: u8, area: &mut [u64]) -> Told
    ensures value { result ≡ seal_told unsound m w f file area.old }
    ensures area_after { area.new ≡ seal_area_on unsound m w f file area.old }
{
    let short = is_short(m, w, area.len());
    let x = seal_on((FILES <= file as usize) | (short | unsound), f, w, area);
    quiet(x.refusal, x.file)
}

// A return of the routine that runs.
pub fn given_back(unsound: bool, frozen: bool, r: Routines) -> RoutineTold
    ensures { result ≡ return_told unsound frozen r }
{
    let x = return_on(unsound, frozen, r);
    let told = Answer::Returned {
        entered: x.entered,
        program: x.program,
    };
    RoutineTold {
        answer: answer_or(x.refusal, told),
        routines: x.routines,
    }
}

// The question what runs.
pub fn running(unsound: bool, r: Routines) -> RoutineTold
    ensures { result ≡ running_told unsound r }
{
    let x = running_on(unsound, r);
    RoutineTold {
        answer: answer_or(x.refusal, Answer::Runs(x.program)),
        routines: x.routines,
    }
}
