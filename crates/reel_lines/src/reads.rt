// Lines of blocks to lines of records, and what is found on the way.

use crate::failure::Failure;
use crate::lines::Said;
use crate::run::Run;
use pack::{Adds, Got};
use std::io::Write;
use word::Checked;

// More gets than a block has answers: its words, an error, and nothing yet.
const GETS: usize = 1100;

// The flags of an open that choose the two fields of a check word.
const SEQUENCE: u8 = 4;

const CHECK: u8 = 8;

// What an error is called, and what it means.
fn meaning(error: u8) -> (&'static str, &'static str) {
    match error {
        1 => (
            "sequence",
            "A block before it is missing or doubled, or it is out of place.",
        ),
        2 => ("check sum", "A word of it is not as it was sent."),
        _ => (
            "sequence and check sum",
            "It is not the block that was sent in this place.",
        ),
    }
}

// A field that was not chosen is told, but it was not compared.
fn compared(chosen: bool) -> &'static str {
    if chosen { "" } else { " (not compared)" }
}

impl Run {
    // The line of an error; sums are in octal, as they stand in the first half of a check word.
    fn show_error(&mut self, found: Checked) -> Result<(), Failure> {
        let place = self.line_number();
        let (name, why) = meaning(found.error);
        let Checked {
            error: _,
            sum,
            number,
            sumread,
            numberread,
        } = found;
        let numbers = compared(self.options.flags & SEQUENCE != 0);
        let sums = compared(self.options.flags & CHECK != 0);
        self.count_error();
        write!(
            self.output.text,
            "ERROR block {place} of the reel: {name}. Number due {number}, read {numberread}{numbers}; "
        )?;
        writeln!(
            self.output.text,
            "sum of its words {sum:06o}, read {sumread:06o}{sums}, octal. {why}"
        )?;
        self.output.end_line()
    }

    // Get once, with the line of its answer. Says whether another get is wanted.
    fn get_record(&mut self) -> Result<bool, Failure> {
        let answer = reel::got(self.state, &mut self.area);
        self.state = answer.state;
        let accepted = answer.refusal == 0;
        match answer.adds {
            Adds::Found(Got::Record { .. }) => {
                self.output
                    .add_words(pack::shown_words(&self.area, answer))?;
                self.count_record();
                self.output.end_line()?;
                Ok(accepted)
            }
            Adds::Found(Got::Leftover { .. }) => {
                self.output.text.write_all(b"LEFTOVER ")?;
                self.output
                    .add_words(pack::shown_words(&self.area, answer))?;
                self.output.end_line()?;
                Ok(accepted)
            }
            Adds::Found(Got::Error(found)) => {
                self.show_error(found)?;
                Ok(accepted)
            }
            _ => Ok(false),
        }
    }

    // Get until it finds nothing more.
    fn get_records(&mut self) -> Result<(), Failure> {
        for _ in 0..GETS {
            if !self.get_record()? {
                break;
            }
        }
        Ok(())
    }

    // The line of a block of n words that the pack refuses; reading goes on with the next.
    fn show_refused(&mut self, refusal: u8, n: usize) -> Result<(), Failure> {
        let place = self.line_number();
        self.count_error();
        write!(
            self.output.text,
            "REFUSED block {place} of the reel: {refusal}"
        )?;
        if refusal == 13 {
            let extra = u32::from(self.options.flags & (SEQUENCE | CHECK) != 0);
            let least = extra + 1;
            let most = extra.saturating_add(u32::from(self.options.size));
            writeln!(
                self.output.text,
                ", it has words {n}, and a block here has {least} to {most}."
            )?;
        } else {
            writeln!(self.output.text, ", a word is 2^36 or more.")?;
        }
        self.output.end_line()
    }

    fn read_block(&mut self, words: &[u64]) -> Result<(), Failure> {
        let answer = reel::brought(self.state, &mut self.area, words);
        self.state = answer.state;
        self.count_block();
        if answer.refusal != 0 {
            return self.show_refused(answer.refusal, words.len());
        }
        self.get_records()
    }

    // The read ends with a mark. Get finds the end, and the file is closed and opened again.
    fn read_mark(&mut self) -> Result<(), Failure> {
        let answer = reel::met_mark(self.state, &mut self.area);
        self.accept(answer)?;
        self.get_records()?;
        self.reopen()
    }

    pub fn read_line(&mut self, said: Said<'_>) -> Result<(), Failure> {
        match said {
            Said::Words(words) => self.read_block(words)?,
            Said::Mark => self.read_mark()?,
            Said::Fault | Said::Bad | Said::Long => return Err(Failure::NoBlock),
        }
        self.count_line();
        Ok(())
    }

    // The end: what was shown stands, and what was counted is told.
    pub fn read_end(&mut self) -> Result<(), Failure> {
        self.output.flush()?;
        self.tell_counts();
        Ok(())
    }
}
