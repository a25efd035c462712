// Lines of records to lines of blocks through the pack, and back, of any length, in constant memory: what stands between a text and `tape_make`, and between
// `tape_show` and a text. Its arguments are `write` or `read`, the block size B, the record length r, the flags of the open, and `told` if progress is to be
// shown. A line is words of ten hexadecimal digits, or MARK. What is refused is said in one line on standard error; `read` ends with a line of what it
// counted, and takes a line FAULT where the image has a fault.
#![tactic(auto)]

mod failure;
mod lines;
mod output;
mod reads;
mod run;
mod writes;

use failure::Failure;
use lines::{Lines, Said};
use reel::{Options, WORDS};
use run::Run;
use std::io::{Read, Stderr};
use std::rt::Env;
use streams::large_buffer;

// What is done with the lines.
#[derive(Clone, Copy)]
enum Task {
    Write,
    Read,
}

impl Task {
    // The first letter of the argument says which.
    fn named(letter: u8) -> Task {
        match letter {
            b'w' => Task::Write,
            _ => Task::Read,
        }
    }

    fn line(self, run: &mut Run, said: Said<'_>) -> Result<(), Failure> {
        match self {
            Task::Write => run.write_line(said),
            Task::Read => run.read_line(said),
        }
    }
}

// Deals with the lines that end in some bytes. There are no more of them than bytes.
fn pass_bytes(
    task: Task,
    run: &mut Run,
    lines: &mut Lines,
    words: &mut [u64],
    bytes: &[u8],
) -> Result<(), Failure> {
    let mut at = 0;
    for _ in 0..bytes.len() {
        let Some(next) = lines.next(bytes, at) else {
            break;
        };
        at = next;
        task.line(run, lines.said(words))?;
    }
    Ok(())
}

// Deals with the lines of the text that is read. There are fewer reads than would use up the range.
fn pass_text(task: Task, run: &mut Run, reader: &mut impl Read) -> Result<(), Failure> {
    let mut input = large_buffer();
    let mut lines = Lines::new();
    let mut words = [0u64; WORDS];
    for _ in 0..u64::MAX {
        let Ok(n) = reader.read(&mut input) else {
            return Err(Failure::Input);
        };
        if n == 0 {
            break;
        }
        pass_bytes(task, run, &mut lines, &mut words, &input[..n])?;
    }
    if lines.has_begun() {
        task.line(run, lines.said(&mut words))?;
    }
    Ok(())
}

// Says what failed, in one write, so that no other program's words stand inside the line. If that cannot be said, nothing more can be.
fn tell(to: Stderr, failure: Failure) {
    let _ = to.println(failure);
}

// The last block goes out, or it is told why not; then the line of progress ends.
fn end_writing(run: &mut Run, to: Stderr) {
    if let Err(failure) = run.write_end() {
        tell(to, failure);
    }
    run.end_progress();
}

// What is left to do after the lines.
fn end(task: Task, run: &mut Run, to: Stderr, passed: Result<(), Failure>) -> Result<(), Failure> {
    match (task, passed) {
        (Task::Write, Ok(())) => {
            end_writing(run, to);
            Ok(())
        }
        (Task::Read, Ok(())) => run.read_end(),
        (Task::Read, Err(Failure::NoBlock)) => {
            run.count_error();
            run.read_end()
        }
        (_, other) => other,
    }
}

// What is left to do before a failure is told: the records before a line that is refused stand, the last block sealed early, and what waits when the pack refuses is written.
fn save(run: &mut Run, to: Stderr, failure: Failure) {
    match failure {
        Failure::Line { .. } => end_writing(run, to),
        Failure::Pack(_) => {
            if let Err(other) = run.output.flush() {
                tell(to, other);
            }
        }
        _ => {}
    }
}

// An argument that is a number of two bytes.
fn size<V: Env>(rt: &V, i: usize) -> u16 {
    let mut name = [0u8; 8];
    let _ = rt.arg(i, &mut name);
    (numbers::next(&name, 0).value % 65536) as u16
}

// The first letter of an argument.
fn letter<V: Env>(rt: &V, i: usize) -> u8 {
    let mut name = [0u8; 8];
    let _ = rt.arg(i, &mut name);
    name[0]
}

fn main(rt: HostRuntime) {
    let task = Task::named(letter(&rt, 1));
    let options = Options {
        flags: (size(&rt, 4) % 256) as u8,
        size: size(&rt, 2),
        rlen: size(&rt, 3),
    };
    let shown = letter(&rt, 5) == b't';
    let mut area = [0u64; WORDS];
    let begun = reel::begun(&mut area, options);
    if begun.refusal != 0 {
        tell(rt.stderr(), Failure::Sizes(begun.refusal));
        return;
    }
    let mut run = Run::new(rt, options, begun.state, area, shown);
    let passed = pass_text(task, &mut run, &mut rt.stdin());
    let Err(failure) = end(task, &mut run, rt.stderr(), passed) else {
        return;
    };
    save(&mut run, rt.stderr(), failure);
    tell(rt.stderr(), failure);
}
