// Plays the session on standard input and writes its answers to standard output, whatever its length, in constant memory.
// On a read or write error it stops and says so in one line on standard error.
#![tactic(auto)]

use session::{Talk, WORDS, new_talk, talk_end, talk_part};
use session_frame::LONGEST;
use std::fmt::{self, Display, Formatter};
use std::io::{Read, Stdin, Stdout};
use streams::{front, large_buffer, write_all};

// The words of the area, and the bytes that are read, or written, at once.
const AREA: usize = 4096;

const PART: usize = 65536;

// Why it stops before the session's end.
#[derive(Clone, Copy)]
enum Failure {
    Input,
    Output,
}

impl Display for Failure {
    fn fmt<W: fmt::Write>(&self, f: &mut Formatter<W>) -> fmt::Result {
        f.write_str(match *self {
            Failure::Input => "the session cannot be read",
            Failure::Output => "the answers cannot be written",
        })
    }
}

// The session so far, with its area and its rooms.
#[derive(Drop)]
struct Player {
    talk: Talk,
    area: [u64; AREA],
    room: [u8; LONGEST],
    words: [u64; WORDS],
    out: [u8; PART],
}

impl Player {
    // Writes the first n characters of the output.
    fn write(&self, to: Stdout, n: usize) -> Result<(), Failure> {
        if write_all(to, front(&self.out, n)) {
            Ok(())
        } else {
            Err(Failure::Output)
        }
    }

    // Plays the bytes that were read, and writes their answers. A part has no more turns than bytes.
    fn play(&mut self, to: Stdout, bytes: &[u8]) -> Result<(), Failure> {
        let mut at = 0;
        for _ in bytes {
            let heard = talk_part(
                self.talk,
                &mut self.area,
                &mut self.room,
                &mut self.words,
                bytes,
                at,
                &mut self.out,
            );
            self.talk = heard.talk;
            self.write(to, heard.length)?;
            at = heard.at;
            if bytes.len() <= at {
                break;
            }
        }
        Ok(())
    }

    // The end of the input: plays the last line, if one has begun.
    fn end(&mut self, to: Stdout) -> Result<(), Failure> {
        let heard = talk_end(
            self.talk,
            &mut self.area,
            &mut self.room,
            &mut self.words,
            &mut self.out,
        );
        self.talk = heard.talk;
        self.write(to, heard.length)
    }
}

// Reads and plays until the input ends: a line is answered as soon as its line feed was read. No run uses up the turns.
fn play(mut from: Stdin, to: Stdout) -> Result<(), Failure> {
    let mut input = large_buffer();
    let mut player = Player {
        talk: new_talk(),
        area: [0; AREA],
        room: [0; LONGEST],
        words: [0; WORDS],
        out: large_buffer(),
    };
    for _ in 0..u64::MAX {
        let Ok(n) = from.read(&mut input) else {
            return Err(Failure::Input);
        };
        if n == 0 {
            return player.end(to);
        }
        player.play(to, &input[..n])?;
    }
    Ok(())
}

fn main(rt: HostRuntime) {
    if let Err(failure) = play(rt.stdin(), rt.stdout()) {
        let _ = eprintln!(rt; "play: {failure}");
    }
}
