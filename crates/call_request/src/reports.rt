// Report: how an activity of a unit has ended.
ghost use Rattle.std.specs.Prelude.{◌≡◌};
ghost use Rattle.area.specs.Refusals.{lowest};
ghost use Rattle.call_request.specs.Report.{length_wrong, rows_by, report_on, report_on_area};
ghost use Rattle.call_request.specs.Moves.{refused_move, report_moved, report_moved_area};

use crate::asks::rest;
use crate::blocks::{delivery_of, look, put_words, reported_file, shown_count, shown_start};
use crate::effects::{effect_of, is_delivery, takes_no_words};
use crate::{Effect, ReportChange, ReportMove};
use area::{part_are_words, row};
use channel::{Channel, Op, UNITS, Unit, unit_of, worked_for};
use channel_outcomes::{NO_LENGTH, OUTCOMES, Verdict, refusal_number, result_number};
use channel_turns::{Desk, book_move, desk_of, judge_turn, moved_to};
use file::File;
use file_input::block_fits;
use word::not_checked;

// The outcome with which a report may carry a length.
const REDUNDANCY: u8 = 1;

// Whether the report carries a length that it may not carry: it is out of range, no redundancy is reported, n words follow and are not so many, or a
// write or a mark is worked for.
fn length_wrong(outcome: u8, length: u32, x: Option<Op>, n: usize) -> bool
    ensures { result ≡ length_wrong outcome length x n }
{
    let silent = takes_no_words(x);
    let given = length != NO_LENGTH;
    let off = (NO_LENGTH < length) | (outcome != REDUNDANCY);
    let other = (0 < n) & (length as usize != n);
    given & (off | (other | silent))
}

// The outcomes up to this one, good, redundancy and incomplete word, may carry words.
const LAST_WITH_WORDS: u8 = 2;

// The refusal of a report, 0 for none: by what the channel makes of it, whether the words given and those handed out are below 2^36, and
// whether n words are as many as a delivered block may have.
fn report_refusal(
    wrong: bool,
    unit: u8,
    outcome: u8,
    length: u32,
    x: Option<Op>,
    v: Verdict,
    e: Effect,
    fits: bool,
    clean: bool,
    room: bool,
    n: usize,
) -> u8
    ensures { result ≡ lowest (rows_by wrong unit outcome length x v e fits clean room n) }
{
    let long = length_wrong(outcome, length, x, n);
    let silent = takes_no_words(x);
    let number = refusal_number(v);
    let brings = is_delivery(e);
    let some = 0 < n;
    let given = some & ((LAST_WITH_WORDS < outcome) | silent);
    let c1 = (wrong | long) | (((UNITS <= unit as usize) | (OUTCOMES <= outcome)) | given);
    let c2 = !fits | !clean;
    let c11 = number == 11;
    let c12 = number == 12;
    let c13 = (brings | some) & !room;
    row(
        1,
        c1,
        row(2, c2, row(11, c11, row(12, c12, row(13, c13, 0)))),
    )
}

// A report of the unit `unit`, which stands as y on a channel with the desk d and which the file f serves. `length` is that of a record in words,
// `NO_LENGTH` if the report carries none. `wrong` says that the channel's number, the area or the state is refused 1.
pub fn report_moved(
    wrong: bool,
    f: File,
    y: Unit,
    d: Desk,
    unit: u8,
    outcome: u8,
    length: u32,
    w: u16,
    frozen: bool,
    area: &mut [u64],
    words: &[u64],
) -> ReportMove
    ensures value { result ≡ report_moved wrong f y d unit outcome length w frozen area.old words.now }
    ensures area_after { area.new ≡ report_moved_area wrong f y.turn unit outcome length w area.old words.now }
{
    let n = words.len();
    let v = judge_turn(y.turn, outcome, length);
    let x = worked_for(y.turn);
    let e = effect_of(0 < n, x, v);
    let looked = look(e, f, words);
    let start = shown_start(e, w, f);
    let count = shown_count(e, f);
    let clean = part_are_words(&area[..], start, count);
    let room = block_fits(f, n);
    let no = report_refusal(
        wrong,
        unit,
        outcome,
        length,
        x,
        v,
        e,
        looked.is_some(),
        clean,
        room,
        n,
    );
    if no != 0 {
        return refused(no, y, d);
    }
    put_words(e, f, w, area, words);
    let found = looked.unwrap();
    ReportMove {
        refusal: 0,
        result: result_number(y.position, v),
        delivery: delivery_of(e, found),
        start,
        count,
        effect: e,
        found,
        change: book_move(y, unit as usize, d, v, frozen),
    }
}

// A refused report: the number alone, and nothing changes.
fn refused(refusal: u8, y: Unit, d: Desk) -> ReportMove
    ensures { result ≡ refused_move refusal y d }
{
    ReportMove {
        refusal,
        result: 0,
        delivery: None,
        start: 0,
        count: 0,
        effect: Effect::Keeps,
        found: not_checked(),
        change: rest(y, d),
    }
}

// The same on the channel c: the file and the channel after it.
pub fn report_on(
    wrong: bool,
    f: File,
    c: Channel,
    unit: u8,
    outcome: u8,
    length: u32,
    w: u16,
    frozen: bool,
    area: &mut [u64],
    words: &[u64],
) -> ReportChange
    ensures value { result ≡ report_on wrong f c unit outcome length w frozen area.old words.now }
    ensures area_after { area.new ≡ report_on_area wrong f c unit outcome length w area.old words.now }
{
    let u = unit as usize;
    let y = unit_of(c, u);
    let d = desk_of(c);
    let x = report_moved(
        wrong, f, y, d, unit, outcome, length, w, frozen, area, words,
    );
    ReportChange {
        refusal: x.refusal,
        result: x.result,
        delivery: x.delivery,
        working: x.change.working,
        start: x.start,
        count: x.count,
        file: reported_file(x.effect, f, words.len(), x.found),
        channel: moved_to(c, u, x.change),
    }
}
