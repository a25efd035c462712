// Plays calls on a state that a caller changes between them and an area that it lends, and prints an answer line for each: what a session cannot
// show. Commands 0 to 10 are the calls in document 01's order; 11 lends fewer words, 12 sets one of them, 13 to 16 change a file, a unit,
// a channel's mark of either kind, or m, W, the freeze and the free mask; 17 starts over; 18, 19 and 20 print the words, the state, and whether it is sound.
// 21 is an ask that names a routine, 22 a return, 23 asks what runs; 24 to 26 change the depth of the push-down list, a program, and what stands with a unit.
// The stored output is that of the second program.
#![tactic(auto)]

mod commands;
mod pokes;
mod print;

ghost use Rattle.std.specs.Prelude.{◌≤◌};

use commands::{Command, Numbers};
use pack::{AnyCall, State};
use std::io::Stdout;
use streams::{Line, read_full};

// The words that can be lent, or come with a call.
const ROOM: usize = 64;

// The state that is passed, the words that can be lent, and how many of them are lent.
#[derive(Drop)]
struct Desk {
    state: State,
    room: [u64; ROOM],
    lent: usize,
}

impl Desk {
    fn new() -> Desk {
        Desk {
            state: pack::before_start(),
            room: [0; ROOM],
            lent: ROOM,
        }
    }

    // Makes a call and prints its answer; the state after it is passed to the next.
    fn call(&mut self, line: &mut Line, call: AnyCall, words: &[u64]) {
        let state = self.state;
        let area = &mut self.room[..self.lent.min(ROOM)];
        let answer = pack::answer(state, area, call, words);
        print::answer(line, area, answer);
        self.state = answer.state;
    }

    // Does a command, whose words are still to come in the text.
    fn play(&mut self, to: Stdout, command: Command, numbers: &mut Numbers<'_>) {
        let mut line = Line::new(to);
        match command {
            Command::Call { call, count } => {
                let mut words = [0; ROOM];
                let given = &mut words[..count.min(ROOM)];
                numbers.fill(given);
                self.call(&mut line, call, given);
            }
            Command::PrintRoom => line.numbers(&self.room),
            Command::PrintState => print::state(&mut line, &self.state),
            Command::PrintSound => line.number(pack::is_sound(self.state)),
            Command::Lend(count) => {
                self.lent = count;
                return;
            }
            Command::Store { at, value } => {
                if let Some(word) = self.room.get_mut(at) {
                    *word = value;
                }
                return;
            }
            Command::Poke(poke) => {
                poke.apply(&mut self.state);
                return;
            }
            Command::StartOver => {
                *self = Desk::new();
                return;
            }
        }
        line.end();
    }
}

fn main(rt: HostRuntime) {
    let mut text = [0u8; 262144];
    let n = read_full(&mut rt.stdin(), &mut text);
    let mut numbers = Numbers { rest: &text[..n] };
    let mut desk = Desk::new();
    // There are no more commands than bytes.
    for _ in 0..n {
        let Some(command) = numbers.command() else {
            return;
        };
        desk.play(rt.stdout(), command, &mut numbers);
    }
}
