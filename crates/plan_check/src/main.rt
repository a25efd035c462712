// Reads a list and a proposal, the files that its two arguments name, and writes whether the proposal is accepted, or why not.
// The planner is not run: the verdict is that of the check alone.
#![tactic(auto)]

ghost use Rattle.std.specs.Prelude.{◌≤◌, MatchOption, length};

use planner::{Fault, ListFault, Rejection, check, judge};
use planner_text::{read_list, read_proposal};
use std::io::{Stderr, Stdout};
use std::num::wrapping_add_u64;
use std::rt::{Env, Files};
use streams::{argument, large_buffer, opened, print_decimal, read_full, write_all};

// One event, and one row, more than a good list has.
const EVENTS: usize = 129;

const ROWS: usize = 65;

// Writes bytes, or a number in decimal.
fn put(to: Stdout, bytes: &[u8]) -> bool {
    write_all(to, bytes)
}

fn put_line(to: Stdout, number: u64) -> bool {
    let word = put(to, b" at line ");
    let place = print_decimal(to, number);
    word & place & put(to, b"\n")
}

// The line for a list at fault.
fn refused_at(to: Stdout, line: u64) -> bool {
    let word = put(to, b"refused 1");
    word & put_line(to, line)
}

// Why a row is not accepted.
fn put_reason(to: Stdout, fault: Fault) -> bool {
    match fault {
        Fault::Openings => put(to, b"count of openings"),
        Fault::OtherFile => put(to, b"no line of this opening"),
        Fault::OtherCount => put(to, b"wrong count of buffers"),
        Fault::Outside => put(to, b"a buffer outside the size"),
        Fault::Twice => put(to, b"the same buffer twice"),
        Fault::Shared => put(to, b"a buffer that serves two open files"),
    }
}

// The verdict. Line 1 is the size, and the first row is on line 2.
fn put_verdict(to: Stdout, verdict: Result<(), Rejection>) -> bool {
    match verdict {
        Ok(()) => put(to, b"accepted\n"),
        Err(Rejection::BadList) => put(to, b"refused 1\n"),
        Err(Rejection::Size) => {
            let word = put(to, b"not accepted: size");
            word & put_line(to, 1)
        }
        Err(Rejection::Row(fault, row)) => {
            let word = put(to, b"not accepted: ");
            let why = put_reason(to, fault);
            word & why & put_line(to, wrapping_add_u64(row as u64, 2))
        }
    }
}

// What a list and a proposal come to.
fn answer(to: Stdout, limit: u8, events: &[u8], size: u8, rows: &[u32]) -> bool {
    match judge(limit, events) {
        Ok(()) => put_verdict(to, check(limit, events, size, rows)),
        Err(ListFault::Limit) => refused_at(to, 1),
        Err(ListFault::Event(i)) => refused_at(to, wrapping_add_u64(i as u64, 2)),
    }
}

// Reads the file that argument i names, as far as the room goes, and gives how many bytes it read; or says that it cannot be read.
fn read_file<R: Env + Files>(rt: &R, err: Stderr, i: usize, text: &mut [u8]) -> Option<usize>
    ensures { MatchOption result (Unit {0}) (λ n. n ≤ length text.new) }
{
    let mut path = [0u8; 4096];
    let length = argument(rt, err, i, &mut path, b"plan: argument")?;
    let mut file = opened(rt, err, &path[..length])?;
    Some(read_full(&mut file, text))
}

fn main(rt: HostRuntime) {
    let mut list_text = large_buffer();
    let list_file = read_file(&rt, rt.stderr(), 1, &mut list_text);
    let mut proposal_text = large_buffer();
    let proposal_file = read_file(&rt, rt.stderr(), 2, &mut proposal_text);
    let (Some(n), Some(m)) = (list_file, proposal_file) else {
        return;
    };
    let mut events = [0u8; EVENTS];
    let list = read_list(&list_text[..n], &mut events);
    let mut rows = [0u32; ROWS];
    let proposal = read_proposal(&proposal_text[..m], &mut rows);
    let good = answer(
        rt.stdout(),
        list.limit,
        &events[..list.count],
        proposal.size,
        &rows[..proposal.count],
    );
    if !good {
        write_all(rt.stderr(), b"plan: the verdict cannot be written\n");
    }
}
