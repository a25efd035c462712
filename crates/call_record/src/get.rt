// Get on one file: the next record, shown as a part of the lent area.
ghost use Rattle.std.specs.Prelude.{◌≡◌};
ghost use Rattle.file_input.specs.Histories.{shown};
ghost use Rattle.call_record.specs.Get.{get_refusal, get_on};

use crate::{GetAnswer, GetChange};
use area::row;
use file::File;
use file_input::{Got, after_get, got_count, got_start};

// The part of the area that an answer shows: the words of a record or a leftover, none of any other.
pub fn got_words(area: &[u64], g: Got) -> &[u64]
    ensures { result.now ≡ shown area.now g }
{
    area::part(area, got_start(g), got_count(g))
}

// The refusal of a get that would find g in this file; c1 is what is known of row 1.
fn get_refusal(c1: bool, f: File, g: Got, area: &[u64]) -> u8
    ensures { result ≡ get_refusal c1 f g area.now }
{
    let right = area::are_words(got_words(area, g));
    let c2 = (f.opened & !f.output) & !right;
    row(1, c1, row(2, c2, row(5, !f.opened, row(6, f.output, 0))))
}

// Get on one file, in an area with w words for each buffer: the refusal, or what it finds.
pub fn get_answer(c1: bool, f: File, w: u16, area: &[u64]) -> GetAnswer
    ensures { (result.refusal ≡ (get_on c1 f w area.now).refusal) × (result.got ≡ (get_on c1 f w area.now).got) }
{
    let got = file_input::get(f, w).got;
    let refusal = get_refusal(c1, f, got, area);
    if refusal != 0 {
        return GetAnswer {
            refusal,
            got: Got::Record { start: 0, words: 0 },
        };
    }
    GetAnswer { refusal, got }
}

// The same with the file after it.
pub fn get_on(c1: bool, f: File, w: u16, area: &[u64]) -> GetChange
    ensures { result ≡ get_on c1 f w area.now }
{
    let GetAnswer { refusal, got } = get_answer(c1, f, w, area);
    let file = if refusal != 0 { f } else { after_get(f) };
    GetChange { refusal, got, file }
}
