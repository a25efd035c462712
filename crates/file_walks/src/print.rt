// Answers: numbers with one blank between them, a line feed after the last; and a file as a list of its blocks.
ghost use Rattle.std.specs.Prelude.{◌≤◌};

use file::{Arrival, File};
use std::io::Stdout;
use streams::{print_decimal, write_all};
use word::Checked;

// A number of a line, after which more come.
pub fn number(to: Stdout, n: u64) {
    print_decimal(to, n);
    write_all(to, b" ");
}

fn last(to: Stdout, n: u64) {
    print_decimal(to, n);
    write_all(to, b"\n");
}

fn flag(b: bool) -> u64
    ensures { result ≤ 1 }
{
    u64::from(b)
}

// The sum and the number that a check worked out, and those read.
fn fields(to: Stdout, c: Checked) {
    number(to, c.sum as u64);
    number(to, c.number as u64);
    number(to, c.sumread as u64);
    number(to, c.numberread as u64);
}

// What a check found: the error, and the fields.
pub fn found(to: Stdout, c: Checked) {
    number(to, c.error as u64);
    fields(to, c);
}

// How a block arrived: the check error, the read error, and the rest of what the check found.
fn arrived(to: Stdout, a: Arrival) {
    number(to, a.check.error as u64);
    number(to, a.failed as u64);
    fields(to, a.check);
}

// The oldest full block, if there is one: its buffer, data words, the place of get in it, and how it arrived, the errors not told.
fn block(to: Stdout, f: File) {
    if file_input::has_full(f) {
        let k = file::oldest(f);
        let x = file::slot_at(f, k);
        number(to, file::start_at(f, 1, k) as u64);
        number(to, file::full_words(x) as u64);
        number(to, file::full_place(x) as u64);
        arrived(to, file::full_arrival(x));
    }
}

// The number of the taken buffer, 255 for none.
fn taken(to: Stdout, f: File) {
    if file::is_taken(f.low.slot) | file::is_taken(f.high.slot) {
        return number(to, file_input::taken_start(f, 1) as u64);
    }
    number(to, 255)
}

// The part-filled buffer and its words, 255 and 0 for none.
fn part(to: Stdout, f: File) {
    if file_output::has_part(f) {
        number(to, file_output::part_start(f, 1) as u64);
    } else {
        number(to, 255);
    }
    number(to, file_output::part_length(f) as u64);
}

// The whole file: its full blocks, the oldest first, the taken and the part-filled buffer, the next block number and the mark.
pub fn whole(to: Stdout, f: File) {
    let rest = file::without_oldest(f);
    number(
        to,
        flag(file_input::has_full(f)) + flag(file_input::has_full(rest)),
    );
    block(to, f);
    block(to, rest);
    taken(to, f);
    part(to, f);
    number(to, f.block as u64);
    last(to, flag(f.marked));
}
