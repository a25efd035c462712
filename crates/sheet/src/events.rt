// What a line comes to for the sheet: by its frame, the state before it and its answer line.
ghost use Rattle.std.specs.Prelude.{◌≡◌, get_or};
ghost use Rattle.sheet.specs.Events.{is_pair, is_repeated, no_event, ask_event, report_event, start_event, event_of};

use crate::Event;
use session_frame::{AskFrame, Frame, ReportFrame};
use state::{State, file_at};

// The character in that place, 0 past the end.
fn char_at(text: &[u8], i: usize) -> u8
    ensures { result ≡ get_or text.now i 0 }
{
    if i < text.len() {
        return text[i];
    }
    0
}

// Whether the digits in places i and j are 0 and this one.
fn is_pair(text: &[u8], i: usize, j: usize, digit: u8) -> bool
    ensures { result ≡ is_pair text.now i j digit }
{
    (char_at(text, i) == b'0') & (char_at(text, j) == digit)
}

// Whether the result of an accepted report leaves its request unanswered: 00, or 07 in its place.
fn is_repeated(text: &[u8]) -> bool
    ensures { result ≡ is_repeated text.now }
{
    let plain = is_pair(text, 2, 3, b'0');
    let cleaner = is_pair(text, 2, 3, b'7');
    plain | cleaner
}

// Nothing that the sheet follows.
fn no_event() -> Event
    ensures { result ≡ no_event }
{
    Event {
        asked: false,
        reported: false,
        answered: false,
        started: false,
        file: 0,
        channel: 0,
        unit: 0,
    }
}

// An ask: its file's channel and unit are looked up in the state.
fn ask_event(s: State, q: AskFrame, accepted: bool) -> Event
    ensures { result ≡ ask_event s q accepted }
{
    let f = file_at(s, q.file as usize);
    Event {
        asked: accepted,
        file: q.file,
        channel: f.channel,
        unit: f.unit,
        ..no_event()
    }
}

// A report.
fn report_event(q: ReportFrame, accepted: bool, repeated: bool) -> Event
    ensures { result ≡ report_event q accepted repeated }
{
    Event {
        reported: accepted,
        answered: accepted & !repeated,
        channel: q.channel,
        unit: q.unit,
        ..no_event()
    }
}

// A fresh start.
fn start_event(accepted: bool) -> Event
    ensures { result ≡ start_event accepted }
{
    Event {
        started: accepted,
        ..no_event()
    }
}

// The event of a frame that was given in the state s and answered with the text.
pub fn event_of(s: State, f: Frame, text: &[u8]) -> Event
    ensures { result ≡ event_of s f text.now }
{
    let accepted = is_pair(text, 0, 1, b'0');
    let repeated = is_repeated(text);
    match f {
        Frame::Fresh(_) => start_event(accepted),
        Frame::Ask(q) => ask_event(s, q, accepted),
        Frame::Report(q) => report_event(q, accepted, repeated),
        _ => no_event(),
    }
}
