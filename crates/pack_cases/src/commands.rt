// Commands as the text has them: a number for what is done, and the numbers that it takes.
use crate::ROOM;
use crate::pokes::Poke;
use pack::{AnyCall, Masks, Naming, no_naming};

// What is done next.
#[derive(Clone, Copy)]
pub enum Command {
    // One of the thirteen calls; so many words for it come next in the text.
    Call { call: AnyCall, count: usize },
    Lend(usize),
    Store { at: usize, value: u64 },
    Poke(Poke),
    StartOver,
    PrintRoom,
    PrintState,
    PrintSound,
}

// What is left of the text.
#[derive(Drop)]
pub struct Numbers<'a> {
    pub rest: &'a [u8],
}

impl Numbers<'_> {
    // The next number, 0 where there is none.
    fn next(&mut self) -> u64 {
        let number = numbers::next(self.rest, 0);
        self.rest = &self.rest[number.at..];
        number.value
    }

    // As many numbers as the room has places.
    pub fn fill(&mut self, room: &mut [u64]) {
        for place in room {
            *place = self.next();
        }
    }

    // The next number as a byte, as a number of two bytes and of four, as a yes or no, and as a place.
    fn byte(&mut self) -> u8 {
        (self.next() % 256) as u8
    }

    fn size(&mut self) -> u16 {
        (self.next() % 65536) as u16
    }

    fn long(&mut self) -> u32 {
        (self.next() % 4294967296) as u32
    }

    fn truth(&mut self) -> bool {
        self.next() != 0
    }

    fn place(&mut self) -> usize {
        (self.next() % 256) as usize
    }

    // A number of words that can be lent or given.
    fn count(&mut self) -> usize {
        self.next().min(ROOM as u64) as usize
    }

    // The next command, unless the text ends.
    pub fn command(&mut self) -> Option<Command> {
        let kind = self.next();
        if kind == 0 && self.rest.is_empty() {
            return None;
        }
        Some(match kind {
            0..=10 | 21..=23 => self.call(kind),
            11 => Command::Lend(self.count()),
            12 => Command::Store {
                at: self.count(),
                value: self.next(),
            },
            13..=16 | 24..=26 => Command::Poke(self.poke(kind)),
            17 => Command::StartOver,
            18 => Command::PrintRoom,
            19 => Command::PrintState,
            _ => Command::PrintSound,
        })
    }

    // The call of that number.
    fn call(&mut self, kind: u64) -> Command {
        let call = match kind {
            0 => AnyCall::Fresh {
                m: self.byte(),
                w: self.size(),
                masks: Masks {
                    a: self.size(),
                    b: self.size(),
                    c: self.size(),
                    d: self.size(),
                    e: self.size(),
                },
            },
            1 => AnyCall::Open {
                file: self.byte(),
                channel: self.byte(),
                unit: self.byte(),
                flags: self.byte(),
                size: self.size(),
                rlen: self.size(),
            },
            2 => AnyCall::Close(self.byte()),
            3 | 21 => AnyCall::Ask {
                file: self.byte(),
                op: self.byte(),
                priority: self.byte(),
                naming: if kind == 3 {
                    no_naming()
                } else {
                    self.naming()
                },
            },
            4 => AnyCall::Report {
                channel: self.byte(),
                unit: self.byte(),
                outcome: self.byte(),
                length: self.long(),
            },
            5 => AnyCall::Get(self.byte()),
            6 => AnyCall::Put(self.byte()),
            7 => AnyCall::Seal(self.byte()),
            8 => AnyCall::Skip(self.byte()),
            9 => AnyCall::Freeze,
            22 => AnyCall::Return,
            23 => AnyCall::Running,
            _ => AnyCall::Thaw,
        };
        let count = match kind {
            4 | 6 => self.count(),
            _ => 0,
        };
        Command::Call { call, count }
    }

    // Whether an ask names a routine, and which.
    fn naming(&mut self) -> Naming {
        Naming {
            given: self.truth(),
            routine: self.byte(),
            level: self.byte(),
        }
    }

    // The change of that number.
    fn poke(&mut self, kind: u64) -> Poke {
        match kind {
            13 => Poke::File {
                file: self.place(),
                field: self.next(),
                value: self.next(),
            },
            14 => Poke::Unit {
                channel: self.place(),
                unit: self.place(),
                field: self.next(),
                value: self.next(),
            },
            15 => Poke::Mark {
                channel: self.place(),
                urgent: self.truth(),
                value: self.byte(),
            },
            16 => Poke::Pool {
                field: self.next(),
                value: self.next(),
            },
            24 => Poke::Depth(self.byte()),
            25 => Poke::Program {
                at: self.place(),
                field: self.next(),
                value: self.byte(),
            },
            _ => Poke::Post {
                channel: self.place(),
                unit: self.place(),
                field: self.next(),
                value: self.byte(),
            },
        }
    }
}
