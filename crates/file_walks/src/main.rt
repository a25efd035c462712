// Plays events on one file, one a line, and prints an answer line for each: what a second program's answers are compared with.
// 1 open; 2 read taken; 3 N ERROR FAILED SUM NUMBER SUMREAD NUMBERREAD delivered; 4 given back; 5 mark met; 6 get; 7 skip; 8 put; 9 seal; 10 what a write sends; 11 written;
// 12 not written. Each answer ends with the whole file.
#![tactic(auto)]

mod print;

use file::{Arrival, File, Wish};
use file_input::Finding;
use numbers::next;
use print::{found, number, whole};
use std::io::Stdout;
use streams::read_full;
use word::Checked;

// The text, and where its next number is read.
#[derive(Drop)]
struct Reader<'a> {
    text: &'a [u8],
    at: usize,
}

impl Reader<'_> {
    fn number(&mut self) -> u64 {
        let n = next(self.text, self.at);
        self.at = n.at;
        n.value
    }

    fn flag(&mut self) -> bool {
        self.number() != 0
    }

    // The low byte of a number, its low two and its low four.
    fn byte(&mut self) -> u8 {
        (self.number() & 0xff) as u8
    }

    fn size(&mut self) -> u16 {
        (self.number() & 0xffff) as u16
    }

    fn wide(&mut self) -> u32 {
        (self.number() & 0xffff_ffff) as u32
    }
}

// What happens to the file.
#[derive(Clone, Copy)]
enum Event {
    Open,
    Take,
    Deliver,
    GiveBack,
    Mark,
    Get,
    Skip,
    Put,
    Seal,
    Send,
    Written,
    NotWritten,
}

impl From<u64> for Event {
    fn from(kind: u64) -> Event {
        match kind {
            1 => Event::Open,
            2 => Event::Take,
            3 => Event::Deliver,
            4 => Event::GiveBack,
            5 => Event::Mark,
            6 => Event::Get,
            7 => Event::Skip,
            8 => Event::Put,
            9 => Event::Seal,
            10 => Event::Send,
            11 => Event::Written,
            _ => Event::NotWritten,
        }
    }
}

// The file, and the words of a buffer.
#[derive(Clone, Copy)]
struct Desk {
    file: File,
    w: u16,
}

fn open(from: &mut Reader<'_>) -> Desk {
    let w = from.size();
    let wish = Wish {
        channel: 0,
        unit: 0,
        output: from.flag(),
        double: from.flag(),
        sequence: from.flag(),
        check: from.flag(),
        size: from.size(),
        rlen: from.size(),
    };
    let low = from.byte();
    let high = from.byte();
    Desk {
        file: file::opened_file(wish, low, high),
        w,
    }
}

fn take(to: Stdout, f: File, w: u16) -> File {
    let g = file_input::took_buffer(f);
    number(to, file_input::taken_start(g, w) as u64);
    g
}

fn get(to: Stdout, f: File, w: u16) -> File {
    let Finding { got, file } = file_input::get(f, w);
    number(to, file_input::got_number(got) as u64);
    number(to, file_input::got_start(got) as u64);
    number(to, file_input::got_count(got) as u64);
    found(to, file_input::got_found(got));
    file
}

fn put(to: Stdout, f: File, w: u16) -> File {
    let g = file_output::added(f);
    number(to, file_output::put_start(f, w) as u64);
    number(to, file_output::part_length(g) as u64);
    number(to, u64::from(file_output::is_complete(g)));
    file_output::after_put(f)
}

fn seal(to: Stdout, f: File, w: u16) -> File {
    number(to, file_output::part_start(f, w) as u64);
    number(to, file_output::part_length(f) as u64);
    file_output::sealed(f)
}

fn send(to: Stdout, f: File, w: u16) -> File {
    number(to, file_output::send_start(f, w) as u64);
    number(to, file_output::send_words(f) as u64);
    f
}

fn deliver(from: &mut Reader<'_>, f: File) -> File {
    let words = from.size();
    let error = from.byte();
    let failed = from.byte();
    let check = Checked {
        error,
        sum: from.wide(),
        number: from.size(),
        sumread: from.wide(),
        numberread: from.size(),
    };
    file_input::delivered(f, words, Arrival { failed, check })
}

// The desk after an event, whose own numbers come next.
fn after(to: Stdout, event: Event, from: &mut Reader<'_>, desk: Desk) -> Desk {
    let Desk { file: f, w } = desk;
    let file = match event {
        Event::Open => return open(from),
        Event::Take => take(to, f, w),
        Event::Deliver => deliver(from, f),
        Event::GiveBack => file_input::gave_back(f),
        Event::Mark => file_input::met_mark(f),
        Event::Get => get(to, f, w),
        Event::Skip => file::without_oldest(f),
        Event::Put => put(to, f, w),
        Event::Seal => seal(to, f, w),
        Event::Send => send(to, f, w),
        Event::Written => file_output::after_write(f, true),
        Event::NotWritten => file_output::after_write(f, false),
    };
    Desk { file, w }
}

// Plays the whole text. There are no more events than bytes.
fn play(to: Stdout, text: &[u8]) {
    let mut desk = Desk {
        file: file::closed_file(),
        w: 0,
    };
    let mut from = Reader { text, at: 0 };
    for _ in 0..text.len() {
        let kind = from.number();
        if kind == 0 {
            return;
        }
        desk = after(to, Event::from(kind), &mut from, desk);
        whole(to, desk.file);
    }
}

fn main(rt: HostRuntime) {
    let mut text = [0u8; 65536];
    let n = read_full(&mut rt.stdin(), &mut text);
    play(rt.stdout(), &text[..n]);
}
