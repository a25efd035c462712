// Shows the tape image on standard input, of any length, in constant memory. Its argument says how: `list` names each record, `words` shows its
// words in hexadecimal digits, `octal` in octal ones. At a fault it stops, and says so in one line on standard error.
#![tactic(auto)]

mod failure;
mod output;
mod window;

use failure::Failure;
use output::{Output, digits};
use std::io::{Stderr, Write};
use std::rt::Env;
use tape::Next;
use window::Window;

// How the records are shown.
#[derive(Clone, Copy)]
enum Form {
    List,
    Words,
    Octal,
}

impl Form {
    // The first letter of the argument says how.
    fn named(letter: u8) -> Form {
        match letter {
            b'l' => Form::List,
            b'o' => Form::Octal,
            _ => Form::Words,
        }
    }
}

// The record of that number in a list is a block of so many words.
fn list_block(output: &mut Output, number: u64, words: usize) -> Result<(), Failure> {
    writeln!(output, "{number} block {words} words")?;
    output.end_record()
}

fn show_words(output: &mut Output, words: &[u64]) -> Result<(), Failure> {
    for word in words {
        output.add(&digits::<10, 16>(*word))?;
    }
    output.add(b"\n")?;
    output.end_record()
}

// In octal there is a blank between two words: in the place of a thirteenth digit.
fn show_octal(output: &mut Output, words: &[u64]) -> Result<(), Failure> {
    for (i, word) in words.iter().enumerate() {
        let mut text = digits::<13, 8>(*word);
        text[0] = b' ';
        output.add(&text[usize::from(i == 0)..])?;
    }
    output.add(b"\n")?;
    output.end_record()
}

fn show_mark(output: &mut Output, form: Form, number: u64) -> Result<(), Failure> {
    match form {
        Form::List => writeln!(output, "{number} mark")?,
        Form::Words | Form::Octal => output.add(b"MARK\n")?,
    }
    output.end_record()
}

// The end of the image; a list says how many bytes it has.
fn show_end(output: &mut Output, form: Form, bytes: u64) -> Result<(), Failure> {
    if matches!(form, Form::List) {
        writeln!(output, "end, {bytes} bytes")?;
    }
    output.send()
}

// Shows the records until the image ends or has a fault. There are fewer turns than would use up the range.
fn show(
    window: &mut Window,
    output: &mut Output,
    form: Form,
    words: &mut [u64],
) -> Result<(), Failure> {
    let mut number: u64 = 1;
    let mut from = 0;
    for _ in 0..u64::MAX {
        match window.next_record(from) {
            Next::More => {
                output.send()?;
                window.read_more(from)?;
                from = 0;
            }
            Next::End => return show_end(output, form, window.place(from)),
            Next::Mark { next } => {
                show_mark(output, form, number)?;
                number = number.wrapping_add(1);
                from = next;
            }
            Next::Block {
                place,
                words: n,
                next,
            } => {
                match form {
                    Form::List => list_block(output, number, n)?,
                    Form::Words => show_words(output, window.words(place, n, words))?,
                    Form::Octal => show_octal(output, window.words(place, n, words))?,
                }
                number = number.wrapping_add(1);
                from = next;
            }
            Next::Fault { number, place } => {
                return Err(Failure::Fault {
                    number,
                    byte: window.place(place),
                });
            }
        }
    }
    Ok(())
}

// Says what failed, in one write, so that no other program's words stand inside the line. If that cannot be said, nothing more can be.
fn tell(to: Stderr, failure: Failure) {
    let _ = to.println(failure);
}

fn main(rt: HostRuntime) {
    let mut name = [0u8; 8];
    let _ = rt.arg(1, &mut name);
    let form = Form::named(name[0]);
    let mut window = Window::new(rt.stdin());
    let mut output = Output::new(rt.stdout());
    let mut words = [0u64; 1024];
    let Err(failure) = show(&mut window, &mut output, form, &mut words) else {
        return;
    };
    // What was shown before a fault stands.
    if let Err(other) = output.send() {
        tell(rt.stderr(), other);
    }
    tell(rt.stderr(), failure);
}
