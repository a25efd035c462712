// Where a run stands: the pack's state and area, what waits to be written, and what was counted.

use crate::failure::Failure;
use crate::output::Output;
use pack::{AnyAnswer, State};
use reel::{Options, WORDS};
use std::fmt;
use std::fs::{File, OpenOptions};
use std::io::Write;

// Progress is told after so many blocks, on a descriptor of its own.
const OFTEN: u64 = 1024;

const PROGRESS: &str = "/dev/fd/3";

// What was counted so far.
#[derive(Clone, Copy)]
struct Counts {
    files: u64,
    blocks: u64,
    records: u64,
    errors: u64,
}

impl fmt::Display for Counts {
    fn fmt<W: fmt::Write>(&self, f: &mut fmt::Formatter<W>) -> fmt::Result {
        let Counts {
            files,
            blocks,
            records,
            errors,
        } = *self;
        write!(
            f,
            "reel: files {files}, blocks {blocks}, records {records}, errors {errors}"
        )
    }
}

#[derive(Drop)]
pub struct Run {
    rt: HostRuntime,
    pub options: Options,
    pub state: State,
    pub area: [u64; WORDS],
    pub output: Output,
    // The lines before.
    lines: u64,
    counts: Counts,
    // Whether a block came after the last mark.
    begun: bool,
    // Whether progress is shown.
    shown: bool,
}

impl Run {
    pub fn new(
        rt: HostRuntime,
        options: Options,
        state: State,
        area: [u64; WORDS],
        shown: bool,
    ) -> Run {
        Run {
            rt,
            options,
            state,
            area,
            output: Output::new(rt.stdout()),
            lines: 0,
            counts: Counts {
                files: 0,
                blocks: 0,
                records: 0,
                errors: 0,
            },
            begun: false,
            shown,
        }
    }

    // The number of the line that is dealt with.
    pub fn line_number(&self) -> u64 {
        self.lines.wrapping_add(1)
    }

    pub fn count_line(&mut self) {
        self.lines = self.lines.wrapping_add(1);
    }

    pub fn count_record(&mut self) {
        self.counts.records = self.counts.records.wrapping_add(1);
    }

    pub fn count_error(&mut self) {
        self.counts.errors = self.counts.errors.wrapping_add(1);
    }

    pub fn count_block(&mut self) {
        self.counts.blocks = self.counts.blocks.wrapping_add(1);
        self.begun = true;
        if self.shown && self.counts.blocks % OFTEN == 0 {
            self.show_progress();
        }
    }

    fn count_file(&mut self) {
        self.counts.files = self.counts.files.wrapping_add(1);
        self.begun = false;
    }

    // The descriptor of progress, if there is one: std reaches it by its name.
    fn progress_file(&self) -> Option<File> {
        OpenOptions::new()
            .append(true)
            .open(&self.rt, PROGRESS)
            .ok()
    }

    fn show_progress(&self) {
        if let Some(mut file) = self.progress_file() {
            let blocks = self.counts.blocks;
            let _ = write!(file, "\rreel: blocks {blocks}");
        }
    }

    // The line of progress ends.
    pub fn end_progress(&self) {
        if self.shown && OFTEN <= self.counts.blocks {
            if let Some(mut file) = self.progress_file() {
                let _ = file.write_all(b"\n");
            }
        }
    }

    // The files end, and what was counted is told in one line on standard error.
    pub fn tell_counts(&mut self) {
        if self.begun {
            self.count_file();
        }
        self.end_progress();
        let _ = self.rt.stderr().println(self.counts);
    }

    // Keeps the state after an answer that no text and no image can make a refusal.
    pub fn accept(&mut self, answer: AnyAnswer) -> Result<(), Failure> {
        if answer.refusal != 0 {
            return Err(Failure::Pack(answer.refusal));
        }
        self.state = answer.state;
        Ok(())
    }

    // The file is closed and opened again for what follows a mark, whose line is shown.
    pub fn reopen(&mut self) -> Result<(), Failure> {
        let answer = reel::again(self.state, &mut self.area, self.options);
        self.accept(answer)?;
        self.output.text.write_all(b"MARK\n")?;
        self.count_file();
        self.output.end_line()
    }
}
