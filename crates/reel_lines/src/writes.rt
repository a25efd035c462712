// Lines of records to lines of blocks.

use crate::failure::Failure;
use crate::lines::Said;
use crate::run::Run;

impl Run {
    // The full block, if there is one, goes out, as its words.
    fn send_block(&mut self) -> Result<(), Failure> {
        let answer = reel::sent(self.state, &mut self.area);
        if answer.refusal != 0 {
            return Ok(());
        }
        self.state = answer.state;
        self.output
            .add_words(pack::shown_words(&self.area, answer))?;
        self.count_block();
        self.output.end_line()
    }

    // The block that has begun, if one has, is sealed early and goes out.
    fn close_block(&mut self) -> Result<(), Failure> {
        self.state = reel::sealed(self.state, &mut self.area).state;
        self.send_block()
    }

    // The line that is dealt with is refused.
    fn refused(&self, refusal: u8) -> Failure {
        Failure::Line {
            refusal,
            number: self.line_number(),
            record: self.options.rlen,
        }
    }

    fn write_record(&mut self, words: &[u64]) -> Result<(), Failure> {
        let answer = reel::put(self.state, &mut self.area, words);
        if answer.refusal != 0 {
            return Err(self.refused(answer.refusal));
        }
        self.state = answer.state;
        self.send_block()
    }

    // The mark goes out, after all blocks.
    fn write_mark(&mut self) -> Result<(), Failure> {
        self.close_block()?;
        let answer = reel::sent_mark(self.state, &mut self.area);
        self.accept(answer)?;
        self.reopen()
    }

    pub fn write_line(&mut self, said: Said<'_>) -> Result<(), Failure> {
        match said {
            Said::Words(words) => self.write_record(words)?,
            Said::Mark => self.write_mark()?,
            Said::Fault | Said::Bad => return Err(self.refused(1)),
            Said::Long => return Err(self.refused(13)),
        }
        self.count_line();
        Ok(())
    }

    // The end: the block that has begun is sealed and goes out.
    pub fn write_end(&mut self) -> Result<(), Failure> {
        let closed = self.close_block();
        let flushed = self.output.flush();
        closed.and(flushed)
    }
}
