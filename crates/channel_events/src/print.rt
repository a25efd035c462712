// Answers: numbers with one blank between them, a line feed after the last.
use channel::{Channel, Position, Request, Turn, UNITS};
use std::io::Stdout;
use streams::{print_decimal, write_all};

// The first number of a line.
pub fn answer(to: Stdout, n: u64) {
    print_decimal(to, n);
}

// A further number of the line.
pub fn number(to: Stdout, n: u64) {
    write_all(to, b" ");
    print_decimal(to, n);
}

pub fn end_line(to: Stdout) {
    write_all(to, b"\n");
}

fn request(to: Stdout, kind: u64, q: Request) {
    number(to, kind);
    number(to, q.op as u64);
    number(to, u64::from(q.priority));
    number(to, u64::from(q.attempts));
    number(to, u64::from(q.incomplete));
    number(to, u64::from(q.noise));
}

fn idle(to: Stdout) {
    for _ in 0..6 {
        number(to, 0);
    }
}

fn turn(to: Stdout, t: Turn) {
    match t {
        Turn::Idle => idle(to),
        Turn::Waiting(q) => request(to, 1, q),
        Turn::Displaced(q) => request(to, 2, q),
        Turn::Working(q) => request(to, 3, q),
    }
}

fn position(to: Stdout, p: Position) {
    number(to, u64::from(p.marks));
    number(to, u64::from(p.records));
    number(to, u64::from(p.noisy));
}

fn declared(to: Stdout, c: Channel, unit: usize) {
    let known = u64::from(channel::is_declared(c, unit));
    if unit == 0 {
        answer(to, known);
    } else {
        number(to, known);
    }
}

// Ten numbers for each unit, then the two marks, then whether the channel is frozen.
pub fn whole(to: Stdout, c: Channel, frozen: bool) {
    for u in 0..UNITS {
        declared(to, c, u);
        turn(to, channel::turn_of(c, u));
        position(to, channel::position_of(c, u));
    }
    number(to, u64::from(c.mark));
    number(to, u64::from(c.urgent));
    number(to, u64::from(frozen));
    end_line(to);
}
