// A state that its caller has changed: one number of it is another. Past the last file, channel, unit or program nothing changes.
use channel::{Channel, Op, Request, Turn, Unit};
use file::{Arrival, Buffer, File, Slot, no_arrival};
use routines::{Post, Program, Programs};
use state::State;

// Which number is changed, and to what.
#[derive(Clone, Copy)]
pub enum Poke {
    File {
        file: usize,
        field: u64,
        value: u64,
    },
    Unit {
        channel: usize,
        unit: usize,
        field: u64,
        value: u64,
    },
    // The mark of ordinary requests, or of urgent ones.
    Mark {
        channel: usize,
        urgent: bool,
        value: u8,
    },
    Pool {
        field: u64,
        value: u64,
    },
    // The depth of the push-down list.
    Depth(u8),
    // What runs, at place 0, or an interrupted program, at the places from 1 on.
    Program {
        at: usize,
        field: u64,
        value: u8,
    },
    Post {
        channel: usize,
        unit: usize,
        field: u64,
        value: u8,
    },
}

impl Poke {
    // Changes that number of the state, and nothing else: the free mask stays when a file is another.
    pub fn apply(self, s: &mut State) {
        match self {
            Poke::File { file, field, value } => {
                if let Some(f) = s.files.get_mut(file) {
                    set_file(f, field, value);
                }
            }
            Poke::Unit {
                channel,
                unit,
                field,
                value,
            } => {
                if let Some(c) = s.channels.get_mut(channel) {
                    set_channel(c, unit, field, value);
                }
            }
            Poke::Mark {
                channel,
                urgent,
                value,
            } => {
                if let Some(c) = s.channels.get_mut(channel) {
                    set_mark(c, urgent, value);
                }
            }
            Poke::Pool { field, value } => set_pool(s, field, value),
            Poke::Depth(count) => s.routines.programs.count = count,
            Poke::Program { at, field, value } => {
                set_programs(&mut s.routines.programs, at, field, value);
            }
            Poke::Post {
                channel,
                unit,
                field,
                value,
            } => {
                if let Some(posts) = s.routines.posts.get_mut(channel) {
                    if let Some(post) = posts.units.get_mut(unit) {
                        set_post(post, field, value);
                    }
                }
            }
        }
    }
}

fn byte(n: u64) -> u8 {
    (n % 256) as u8
}

fn size(n: u64) -> u16 {
    (n % 65536) as u16
}

fn mask(n: u64) -> u32 {
    (n % 4294967296) as u32
}

// ---- a file

fn set_file(f: &mut File, field: u64, v: u64) {
    match field {
        0 => f.opened = v != 0,
        1 => f.channel = byte(v),
        2 => f.unit = byte(v),
        3 => f.output = v != 0,
        4 => f.double = v != 0,
        5 => f.sequence = v != 0,
        6 => f.check = v != 0,
        7 => f.size = size(v),
        8 => f.rlen = size(v),
        9 => f.turned = v != 0,
        10 => f.block = size(v),
        11 => f.marked = v != 0,
        12..=21 => set_buffer(&mut f.low, field - 12, v),
        _ => set_buffer(&mut f.high, field - 22, v),
    }
}

// A buffer's number (0), kind (1), or number of its slot, if it has that: 2 words, 3 the place of get, 4 to 9 how the block arrived.
fn set_buffer(b: &mut Buffer, field: u64, v: u64) {
    match field {
        0 => b.number = byte(v),
        1 => b.slot = slot_of_kind(v),
        _ => b.slot = slot_with(b.slot, field, v),
    }
}

fn slot_of_kind(kind: u64) -> Slot {
    match kind {
        1 => Slot::Taken,
        2 => Slot::Part(0),
        3 => Slot::Full {
            words: 0,
            at: 0,
            arrival: no_arrival(),
        },
        _ => Slot::Empty,
    }
}

fn slot_with(x: Slot, field: u64, v: u64) -> Slot {
    match x {
        Slot::Part(_) if field == 2 => Slot::Part(size(v)),
        Slot::Full { words, at, arrival } => match field {
            2 => Slot::Full {
                words: size(v),
                at,
                arrival,
            },
            3 => Slot::Full {
                words,
                at: size(v),
                arrival,
            },
            _ => Slot::Full {
                words,
                at,
                arrival: arrival_with(arrival, field, v),
            },
        },
        _ => x,
    }
}

// How a block arrived: 4 the check error, 5 the read error, 6 and 7 the sum and the number worked out, 8 and 9 those read.
fn arrival_with(a: Arrival, field: u64, v: u64) -> Arrival {
    let mut a = a;
    match field {
        4 => a.check.error = byte(v),
        5 => a.failed = byte(v),
        6 => a.check.sum = mask(v),
        7 => a.check.number = size(v),
        8 => a.check.sumread = mask(v),
        _ => a.check.numberread = size(v),
    }
    a
}

// ---- a channel

fn set_channel(c: &mut Channel, unit: usize, field: u64, v: u64) {
    if let Some(unit) = c.units.get_mut(unit) {
        set_unit(unit, field, v);
    }
}

fn set_mark(c: &mut Channel, urgent: bool, v: u8) {
    if urgent {
        c.urgent = v;
    } else {
        c.mark = v;
    }
}

fn set_unit(unit: &mut Unit, field: u64, v: u64) {
    match field {
        0 => unit.declared = v != 0,
        7 => unit.position.marks = size(v),
        8 => unit.position.records = size(v),
        9 => unit.position.noisy = v != 0,
        _ => unit.turn = turn_with(unit.turn, field, v),
    }
}

// A turn of another kind (1), or with another number of its request, if it has one.
fn turn_with(t: Turn, field: u64, v: u64) -> Turn {
    let kind = if field == 1 { v } else { kind_of(t) };
    match t {
        Turn::Idle => turn_of_kind(kind, NO_REQUEST),
        Turn::Waiting(q) | Turn::Displaced(q) | Turn::Working(q) => {
            turn_of_kind(kind, request_with(q, field, v))
        }
    }
}

fn kind_of(t: Turn) -> u64 {
    match t {
        Turn::Idle => 0,
        Turn::Waiting(_) => 1,
        Turn::Displaced(_) => 2,
        Turn::Working(_) => 3,
    }
}

fn turn_of_kind(kind: u64, q: Request) -> Turn {
    match kind {
        1 => Turn::Waiting(q),
        2 => Turn::Displaced(q),
        3 => Turn::Working(q),
        _ => Turn::Idle,
    }
}

const NO_REQUEST: Request = Request {
    op: Op::Read,
    priority: false,
    attempts: 0,
    incomplete: 0,
    noise: 0,
};

fn request_with(q: Request, field: u64, v: u64) -> Request {
    match field {
        2 => Request { op: op_of(v), ..q },
        3 => Request {
            priority: v != 0,
            ..q
        },
        4 => Request {
            attempts: byte(v),
            ..q
        },
        5 => Request {
            incomplete: byte(v),
            ..q
        },
        6 => Request {
            noise: byte(v),
            ..q
        },
        _ => q,
    }
}

fn op_of(v: u64) -> Op {
    match v {
        0 => Op::Read,
        1 => Op::Write,
        _ => Op::Mark,
    }
}

// ---- the routines

fn set_programs(p: &mut Programs, at: usize, field: u64, v: u8) {
    if at == 0 {
        set_program(&mut p.running, field, v);
    } else if let Some(program) = p.pushed.get_mut(at - 1) {
        set_program(program, field, v);
    }
}

// A program's rank (0), channel (1), unit (2) or routine.
fn set_program(p: &mut Program, field: u64, v: u8) {
    match field {
        0 => p.rank = v,
        1 => p.channel = v,
        2 => p.unit = v,
        _ => p.routine = v,
    }
}

// What is named (0 the rank, 1 the routine) or waits (2, 3) at a unit.
fn set_post(p: &mut Post, field: u64, v: u8) {
    match field {
        0 => p.named.rank = v,
        1 => p.named.routine = v,
        2 => p.due.rank = v,
        _ => p.due.routine = v,
    }
}

// ---- the pool

fn set_pool(s: &mut State, field: u64, v: u64) {
    match field {
        0 => s.m = byte(v),
        1 => s.w = size(v),
        3 => s.free = mask(v),
        _ => s.frozen = v != 0,
    }
}
