// The block that a report brings or hands out: where it lies, whether its words are right, and what it makes of the file and the area.
ghost use Rattle.std.specs.Prelude.{◌≡◌, true, ◌<◌, length};
ghost use Rattle.std.specs.Bool.{then_some};
ghost use Rattle.area.specs.Lists.{all_of};
ghost use Rattle.area.specs.Parts.{is_word};
ghost use Rattle.file_input.specs.Delivers.{block_fits};
ghost use Rattle.call_request.specs.Effects.{is_delivery};
ghost use Rattle.call_request.specs.Report.{shown_start, shown_count, delivery_check, delivery_of, reported_file, reported_area};

use crate::Effect;
use crate::effects::is_delivery;
use area::{are_words, copy_in};
use file::{Arrival, File};
use file_input::{delivered, gave_back, met_mark, taken_start};
use file_output::{after_write, send_start, send_words};
use word::{Checked, LAST_NUMBER, extra, not_checked};

// One pass over the words that are given with a report: what the check finds if they are a delivered block; nothing unless each is below 2^36.
pub fn look(x: Effect, f: File, words: &[u64]) -> Option<Checked>
    ensures { result ≡ then_some (all_of is_word words.now) (delivery_check x f words.now) }
{
    let brings = is_delivery(x);
    if brings & (f.block <= LAST_NUMBER) {
        let judged = block::judge(words, f.sequence, f.check, f.block);
        return (judged.refusal != 2).then_some(judged.found);
    }
    are_words(words).then_some(not_checked())
}

// What the report delivers, by what was found of the words.
pub fn delivery_of(x: Effect, found: Checked) -> Option<Checked>
    ensures { result ≡ delivery_of x found }
{
    if is_delivery(x) { Some(found) } else { None }
}

// Where in the area the block begins that the report hands out, 0 if it hands out none.
pub fn shown_start(x: Effect, w: u16, f: File) -> usize
    ensures { (result ≡ shown_start x w f) × (result < 16777216) }
{
    match x {
        Effect::Sends => send_start(f, w),
        Effect::Delivers(_) | Effect::MeetsMark | Effect::GivesBack | Effect::Keeps => 0,
    }
}

// How many words that block has, its check word included.
pub fn shown_count(x: Effect, f: File) -> usize
    ensures { (result ≡ shown_count x f) × (result < 65537) }
{
    match x {
        Effect::Sends => send_words(f),
        Effect::Delivers(_) | Effect::MeetsMark | Effect::GivesBack | Effect::Keeps => 0,
    }
}

// The file with a delivered block of n words, its check word among them, by the error of the read.
fn with_delivery(f: File, n: usize, failed: u8, found: Checked) -> File
    requires { block_fits f n ≡ true }
    ensures { result ≡ reported_file (Effect.Delivers failed) f n found }
{
    let e = extra(f.sequence, f.check) as usize;
    let arrival = Arrival {
        failed,
        check: found,
    };
    delivered(f, (n - e) as u16, arrival)
}

// The file after the report, which gave n words.
pub fn reported_file(x: Effect, f: File, n: usize, found: Checked) -> File
    requires { is_delivery x ≡ true → block_fits f n ≡ true }
    ensures { result ≡ reported_file x f n found }
{
    match x {
        Effect::Delivers(failed) => with_delivery(f, n, failed, found),
        Effect::MeetsMark => met_mark(f),
        Effect::GivesBack => gave_back(f),
        Effect::Sends => after_write(f, true),
        Effect::Keeps => f,
    }
}

// Puts a delivered block into the taken buffer, from its first word on. No other word of the area changes.
pub fn put_words(x: Effect, f: File, w: u16, area: &mut [u64], words: &[u64])
    ensures { area.new ≡ reported_area x f w words.now area.old }
{
    if is_delivery(x) {
        copy_in(area, taken_start(f, w), words);
    }
}
