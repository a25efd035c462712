// What a call answers, and the whole state, as the numbers of a line.
use channel::{Channel, Op, Request, Turn, UNITS, Unit};
use file::{Buffer, File, Slot, no_arrival};
use pack::{Adds, AnyAnswer, got_found, got_number, shown_words};
use pool::FILES;
use routines::{Post, Program, Programs};
use state::{CHANNELS, State};
use streams::Line;
use word::{Checked, not_checked};

// The number after the last program of the list.
const PROGRAMS_END: u64 = 5;

// ---- an answer

// The refusal, and what the answer of an accepted call adds.
pub fn answer(line: &mut Line, area: &[u64], r: AnyAnswer) {
    line.number(r.refusal);
    if r.refusal == 0 {
        added(line, area, r);
    }
}

fn added(line: &mut Line, area: &[u64], r: AnyAnswer) {
    match r.adds {
        Adds::Nothing => {}
        Adds::Working(unit) => line.number(unit),
        Adds::Reported {
            result: ended,
            delivery,
            working,
        } => {
            line.number(ended);
            checked(line, told(delivery));
            line.number(working);
            shown(line, area, r);
        }
        Adds::Found(got) => {
            line.number(got_number(got));
            checked(line, got_found(got));
            shown(line, area, r);
        }
        Adds::Returned {
            entered,
            program: now,
        } => {
            line.number(entered);
            program(line, now);
        }
        Adds::Runs(now) => program(line, now),
    }
}

// What a report tells of the block that it delivers; all zero for none.
fn told(d: Option<Checked>) -> Checked {
    d.unwrap_or(not_checked())
}

// Where the words that an answer shows begin, how many they are, and the words.
fn shown(line: &mut Line, area: &[u64], r: AnyAnswer) {
    line.number(r.start as u64);
    line.number(r.count as u64);
    line.numbers(shown_words(area, r));
}

// What a check found: the error, the sum and the number worked out, and those read.
fn checked(line: &mut Line, c: Checked) {
    line.number(c.error);
    line.number(c.sum);
    line.number(c.number);
    line.number(c.sumread);
    line.number(c.numberread);
}

// A program: its rank, its channel and unit, and its number; all zero for the main program.
fn program(line: &mut Line, p: Program) {
    line.number(p.rank);
    line.number(p.channel);
    line.number(p.unit);
    line.number(p.routine);
}

// ---- the state

// The pool, each channel with its units, ended by 10, each file that is not all zero, ended by 16, and the routines.
pub fn state(line: &mut Line, s: &State) {
    line.number(s.m);
    line.number(s.w);
    line.number(s.frozen);
    line.number(s.free);
    for c in &s.channels {
        channel(line, c);
    }
    for (i, f) in s.files.iter().enumerate() {
        if !is_zero(f) {
            line.number(i as u64);
            file(line, f);
        }
    }
    line.number(FILES as u64);
    programs(line, &s.routines.programs);
    for (c, posts) in s.routines.posts.iter().enumerate() {
        for (u, p) in posts.units.iter().enumerate() {
            post(line, c, u, p);
        }
    }
    line.number(CHANNELS as u64);
}

// ---- a channel

fn channel(line: &mut Line, c: &Channel) {
    line.number(c.mark);
    line.number(c.urgent);
    for (u, x) in c.units.iter().enumerate() {
        unit(line, u, x);
    }
    line.number(UNITS as u64);
}

// A unit that is declared or has a request, or whose position is not zero.
fn unit(line: &mut Line, u: usize, x: &Unit) {
    let p = x.position;
    let moved = 0 < p.marks || 0 < p.records || p.noisy;
    if x.declared || !matches!(x.turn, Turn::Idle) || moved {
        line.number(u as u64);
        line.number(x.declared);
        turn(line, x.turn);
        line.number(p.marks);
        line.number(p.records);
        line.number(p.noisy);
    }
}

fn turn(line: &mut Line, t: Turn) {
    match t {
        Turn::Idle => line.numbers(&[0; 6]),
        Turn::Waiting(q) => request(line, 1, q),
        Turn::Displaced(q) => request(line, 2, q),
        Turn::Working(q) => request(line, 3, q),
    }
}

fn request(line: &mut Line, kind: u64, q: Request) {
    line.number(kind);
    line.number(op_number(q.op));
    line.number(q.priority);
    line.number(q.attempts);
    line.number(q.incomplete);
    line.number(q.noise);
}

fn op_number(op: Op) -> u64 {
    match op {
        Op::Read => 0,
        Op::Write => 1,
        Op::Mark => 2,
    }
}

// ---- a file

// Whether every field is zero.
fn is_zero(f: &File) -> bool {
    let flags = f.opened || f.output || f.double || f.sequence || f.check || f.turned || f.marked;
    let numbers = f.channel == 0 && f.unit == 0 && f.size == 0 && f.rlen == 0 && f.block == 0;
    !flags && numbers && is_blank(&f.low) && is_blank(&f.high)
}

fn is_blank(b: &Buffer) -> bool {
    b.number == 0 && matches!(b.slot, Slot::Empty)
}

fn file(line: &mut Line, f: &File) {
    line.number(f.opened);
    line.number(f.channel);
    line.number(f.unit);
    line.number(f.output);
    line.number(f.double);
    line.number(f.sequence);
    line.number(f.check);
    line.number(f.size);
    line.number(f.rlen);
    line.number(f.turned);
    line.number(f.block);
    line.number(f.marked);
    buffer(line, &f.low);
    buffer(line, &f.high);
}

// A buffer: what its slot is, its words, the place of get, and how a block arrived: the check error, the read error, and the rest of what the
// check found.
fn buffer(line: &mut Line, b: &Buffer) {
    let (kind, words, at, arrival) = match b.slot {
        Slot::Empty => (0, 0, 0, no_arrival()),
        Slot::Taken => (1, 0, 0, no_arrival()),
        Slot::Part(words) => (2, words, 0, no_arrival()),
        Slot::Full { words, at, arrival } => (3u64, words, at, arrival),
    };
    let check = arrival.check;
    line.number(b.number);
    line.number(kind);
    line.number(words);
    line.number(at);
    line.number(check.error);
    line.number(arrival.failed);
    line.number(check.sum);
    line.number(check.number);
    line.number(check.sumread);
    line.number(check.numberread);
}

// ---- the routines

// How many programs were interrupted; what runs, at place 0, and those, from the bottom of the list on; 5 at the end.
fn programs(line: &mut Line, p: &Programs) {
    line.number(p.count);
    placed(line, 0, p.running);
    for (i, x) in p.pushed.iter().enumerate() {
        placed(line, i as u64 + 1, *x);
    }
    line.number(PROGRAMS_END);
}

// A place of the list that is not all zero.
fn placed(line: &mut Line, at: u64, p: Program) {
    if (p.rank | p.channel | p.unit | p.routine) != 0 {
        line.number(at);
        program(line, p);
    }
}

// What stands with a unit, if it is not all zero.
fn post(line: &mut Line, c: usize, u: usize, p: &Post) {
    if (p.named.rank | p.named.routine | p.due.rank | p.due.routine) != 0 {
        line.number(c as u64);
        line.number(u as u64);
        line.number(p.named.rank);
        line.number(p.named.routine);
        line.number(p.due.rank);
        line.number(p.due.routine);
    }
}
