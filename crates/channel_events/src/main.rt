// Plays events on one channel, one a line, and prints an answer line for each: what a second program's answers are compared with.
// 0 MASK fresh start; 1 UNIT OP PRIORITY ask; 2 UNIT OUTCOME LENGTH report; 3 freeze; 4 thaw; 5 the whole channel.
#![tactic(auto)]

mod print;

use channel::{Channel, Op};
use channel_outcomes::NO_LENGTH;
use numbers::next;
use print::{answer, end_line, number, whole};
use std::io::Stdout;
use streams::{large_buffer, read_full};

// The events and where the next of their numbers is read, the channel, whether it is frozen, and where the answers go.
#[derive(Drop)]
struct Desk<'a> {
    text: &'a [u8],
    at: usize,
    channel: Channel,
    frozen: bool,
    to: Stdout,
}

// A number as a byte; one that is too large for a byte is 255.
fn small(n: u64) -> u8 {
    u8::try_from(n).unwrap_or(255)
}

// A length in words; one that is too large for a report stands for none.
fn length_of(n: u64) -> u32 {
    match u16::try_from(n) {
        Ok(words) => u32::from(words),
        Err(_) => NO_LENGTH,
    }
}

impl Desk<'_> {
    // The next number of the text.
    fn next(&mut self) -> u64 {
        let n = next(self.text, self.at);
        self.at = n.at;
        n.value
    }

    // The number of the unit that the channel works for, at the end of an answer line.
    fn end_with_working(&self) {
        number(self.to, channel_turns::working_number(self.channel) as u64);
        end_line(self.to);
    }

    fn fresh_start(&mut self) {
        let mask = self.next();
        self.channel = channel::fresh((mask % 65536) as u16);
        self.frozen = false;
        answer(self.to, 0);
        end_line(self.to);
    }

    // Whether the request was accepted; one with a number that is no operation's, or with a priority that is none, is not.
    fn asked(&mut self, unit: usize, op: u64, priority: u64) -> bool {
        match Op::try_from(small(op)) {
            Ok(op) if priority <= 1 => {
                let asked = channel_turns::ask(self.channel, unit, op, priority == 1, self.frozen);
                self.channel = asked.channel;
                asked.accepted
            }
            _ => false,
        }
    }

    fn ask(&mut self) {
        let unit = self.next();
        let op = self.next();
        let priority = self.next();
        let accepted = self.asked(unit as usize, op, priority);
        answer(self.to, u64::from(accepted));
        self.end_with_working();
    }

    fn report(&mut self) {
        let unit = self.next() as usize;
        let outcome = small(self.next());
        let length = length_of(self.next());
        let told = channel_turns::report(self.channel, unit, outcome, length, self.frozen);
        let stood = channel::position_of(self.channel, unit);
        self.channel = told.channel;
        answer(
            self.to,
            channel_outcomes::refusal_number(told.verdict) as u64,
        );
        number(
            self.to,
            channel_outcomes::result_number(stood, told.verdict) as u64,
        );
        self.end_with_working();
    }

    fn hold(&mut self, frozen: bool) {
        self.frozen = frozen;
        if !frozen {
            self.channel = channel_turns::thaw(self.channel);
        }
        answer(self.to, channel_turns::working_number(self.channel) as u64);
        end_line(self.to);
    }

    // One event, of which the kind has been read.
    fn event(&mut self, kind: u64) {
        match kind {
            0 => self.fresh_start(),
            1 => self.ask(),
            2 => self.report(),
            3 => self.hold(true),
            4 => self.hold(false),
            _ => whole(self.to, self.channel, self.frozen),
        }
    }
}

// Plays the whole text. There are no more events than bytes.
fn play(to: Stdout, text: &[u8]) {
    let mut desk = Desk {
        text,
        at: 0,
        channel: channel::fresh(0),
        frozen: false,
        to,
    };
    for _ in 0..text.len() {
        let kind = desk.next();
        if desk.at == text.len() {
            return;
        }
        desk.event(kind);
    }
}

fn main(rt: HostRuntime) {
    let mut buffer = large_buffer();
    let n = read_full(&mut rt.stdin(), &mut buffer);
    play(rt.stdout(), &buffer[..n]);
}
