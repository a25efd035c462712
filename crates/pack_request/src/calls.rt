// Ask and report on a whole state.
ghost use Rattle.std.specs.Prelude.{◌≡◌};
ghost use Rattle.area.specs.Parts.{part_of};
ghost use Rattle.pack_request.specs.Calls.{ask_by, report_by, report_by_area};

use crate::changes::changed_state;
use crate::{Asking, Reporting};
use area::part;
use call_request::{ask_on, asked_routines, report_on, reported_routines};
use pool::{FILES, file_of};
use routines::{Naming, waits_at};
use state::{CHANNELS, State, area_short, channel_at, file_at};
use state_sound::is_sound;

// An ask of a file: operation 0 read, 1 write, 2 mark, priority 0 or 1, and the routine that it names. A refusal gives the state that was passed.
pub fn ask(s: State, file: u8, op: u8, priority: u8, naming: Naming) -> Asking
    ensures { result ≡ ask_by s file op priority naming }
{
    let i = file as usize;
    let f = file_at(s, i);
    let j = f.channel as usize;
    let u = f.unit as usize;
    let c = channel_at(s, j);
    let waits = waits_at(s.routines, j, u);
    let whole = is_sound(s);
    let wrong = !whole | (FILES <= i);
    let x = ask_on(wrong, f, c, op, priority, naming, waits, s.frozen);
    let routines = asked_routines(s.routines, j, u, naming);
    Asking {
        refusal: x.refusal,
        working: x.working,
        state: changed_state(s, i, j, x.refusal, x.file, x.channel, routines),
    }
}

// A report of a unit: its outcome, 0 good, 1 redundancy, 2 incomplete word, 3 file mark, 4 end of medium, the length in words that a read's redundancy
// report may carry, 65,536 for none, and the words of a block that a read brings, well or after a permanent error, which go into the area. A refusal
// gives the state that was passed and changes no word.
pub fn report(
    s: State,
    area: &mut [u64],
    channel: u8,
    unit: u8,
    outcome: u8,
    length: u32,
    words: &[u64],
) -> Reporting
    ensures value { result ≡ report_by s area.old channel unit outcome length words.now }
    ensures area_after { area.new ≡ report_by_area s area.old channel unit outcome length words.now }
{
    let short = area_short(s, area.len());
    let whole = is_sound(s);
    let i = file_of(s.files, channel, unit);
    let f = file_at(s, i);
    let j = channel as usize;
    let c = channel_at(s, j);
    let wrong = !whole | (short | (CHANNELS <= j));
    let x = report_on(
        wrong, f, c, unit, outcome, length, s.w, s.frozen, area, words,
    );
    let routines = reported_routines(s.routines, s.frozen, j, unit as usize, x.result);
    Reporting {
        refusal: x.refusal,
        result: x.result,
        delivery: x.delivery,
        working: x.working,
        start: x.start,
        count: x.count,
        state: changed_state(s, i, j, x.refusal, x.file, x.channel, routines),
    }
}

// The block that a report of a write hands out, as a part of the lent area, check word last; nothing for any other report.
pub fn reported_words<'a>(area: &'a [u64], r: Reporting) -> &'a [u64]
    ensures { result.now ≡ part_of r.start r.count area.now }
{
    part(area, r.start, r.count)
}
