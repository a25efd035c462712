// Makes the adjudication sheet of a session and its recorded answers, the files that its two arguments name, of any length, in constant memory.
// If a file cannot be read it says so in one line on standard error, and writes no sheet.
#![tactic(auto)]

use session::{ANSWER, WORDS};
use session_frame::LONGEST;
use sheet::{Desk, LISTED, Row, answers_end, answers_part, new_desk, session_end, session_part};
use std::fs::File;
use std::io::{self, Read, Stderr, Write};
use std::rt::{Env, Files};
use streams::{argument, front, large_buffer, opened, write_all};

// The words of the area, and the bytes that are read at once.
const AREA: usize = 4096;

const INPUT: usize = 65536;

// A file that is read in parts: the bytes of the room from `from` up to `to` are still to come.
#[derive(Drop)]
struct Source {
    file: File,
    room: [u8; INPUT],
    from: usize,
    to: usize,
}

impl Source {
    fn new(file: File) -> Source {
        Source {
            file,
            room: large_buffer(),
            from: 0,
            to: 0,
        }
    }

    // Reads once if no bytes are still to come, and says whether the file has ended.
    fn has_ended(&mut self) -> io::Result<bool> {
        if self.from < self.to {
            return Ok(false);
        }
        self.from = 0;
        self.to = self.file.read(&mut self.room)?;
        Ok(self.to == 0)
    }
}

// The desk with its area and its rooms, and the two files.
#[derive(Drop)]
struct Clerk {
    desk: Desk,
    area: [u64; AREA],
    room: [u8; LONGEST],
    words: [u64; WORDS],
    out: [u8; ANSWER],
    other: [u8; LONGEST],
    session: Source,
    answers: Source,
}

impl Clerk {
    // More of the session: bytes that were read, or its end.
    fn more_session(&mut self) -> io::Result<()> {
        if self.session.has_ended()? {
            self.desk = session_end(
                self.desk,
                &mut self.area,
                &mut self.room,
                &mut self.words,
                &mut self.out,
            );
            return Ok(());
        }
        let taken = session_part(
            self.desk,
            &mut self.area,
            &mut self.room,
            &mut self.words,
            front(&self.session.room, self.session.to),
            self.session.from,
            &mut self.out,
        );
        self.desk = taken.desk;
        self.session.from = taken.at;
        Ok(())
    }

    // More of the recorded answers: bytes that were read, or their end.
    fn more_answers(&mut self) -> io::Result<()> {
        if self.answers.has_ended()? {
            self.desk = answers_end(self.desk, &self.other, &self.out);
            return Ok(());
        }
        let taken = answers_part(
            self.desk,
            &mut self.other,
            front(&self.answers.room, self.answers.to),
            self.answers.from,
            &self.out,
        );
        self.desk = taken.desk;
        self.answers.from = taken.at;
        Ok(())
    }

    // Goes on until both are done with: a line of the session is asked for, or the recorded line of an answer that waits and whether there is
    // one too many. No run uses up the turns.
    fn run(&mut self) -> io::Result<()> {
        for _ in 0..u64::MAX {
            if self.desk.waits {
                self.more_answers()?;
            } else if !self.desk.over {
                self.more_session()?;
            } else if self.desk.differs == 0 && !self.desk.done {
                self.more_answers()?;
            } else {
                break;
            }
        }
        Ok(())
    }
}

// Opens the file that argument i names, or says that it cannot.
fn named<R: Env + Files>(rt: &R, err: Stderr, i: usize) -> Option<R::File> {
    let mut path = [0u8; 4096];
    let length = argument(rt, err, i, &mut path, b"sheet: argument")?;
    opened(rt, err, front(&path, length))
}

// "Each request is a line of five decimal numbers one space apart"
fn write_row<W: Write>(to: &mut W, row: Row) -> io::Result<()> {
    writeln!(
        to,
        "{} {} {} {} {}",
        row.file, row.unit, row.asked, row.answered, row.reports
    )
}

fn write_sheet<W: Write>(to: &mut W, desk: &Desk) -> io::Result<()> {
    writeln!(to, "{}", desk.differs)?;
    for row in &desk.listed.rows[..desk.listed.count.min(LISTED)] {
        write_row(to, *row)?;
    }
    if desk.listed.more {
        writeln!(to, "MORE")?;
    }
    Ok(())
}

fn main(rt: HostRuntime) {
    let Some(one) = named(&rt, rt.stderr(), 1) else {
        return;
    };
    let Some(two) = named(&rt, rt.stderr(), 2) else {
        return;
    };
    let mut clerk = Clerk {
        desk: new_desk(),
        area: [0; AREA],
        room: [0; LONGEST],
        words: [0; WORDS],
        out: [0; ANSWER],
        other: [0; LONGEST],
        session: Source::new(one),
        answers: Source::new(two),
    };
    if clerk.run().is_err() {
        let _ = eprintln!(rt; "sheet: a file cannot be read");
        return;
    }
    let mut text = large_buffer();
    let mut rest = &mut text[..];
    // The room is enough: 512 lines of five numbers have 36,352 characters at most.
    let _ = write_sheet(&mut rest, &clerk.desk);
    let left = rest.len();
    if !write_all(rt.stdout(), front(&text, INPUT.saturating_sub(left))) {
        let _ = eprintln!(rt; "sheet: the sheet cannot be written");
    }
}
