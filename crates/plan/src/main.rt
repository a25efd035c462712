// Reads a list on standard input and writes its plan, or one line that says what is refused.
// A list that is good ends within the first 65,536 bytes, and one that is not has its first fault there.
#![tactic(auto)]

use planner::{ListFault, NoPlan, Proposal, judge, plan};
use planner_text::read_list;
use std::io::Stdout;
use std::num::wrapping_add_u64;
use streams::{large_buffer, print_decimal, read_full, write_all};

// One event more than a good list has.
const ROOM: usize = 129;

// Writes bytes, or a number in decimal.
fn put(to: Stdout, bytes: &[u8]) -> bool {
    write_all(to, bytes)
}

fn put_number(to: Stdout, n: u64) -> bool {
    print_decimal(to, n)
}

// The line for a list at fault.
fn refused_at(to: Stdout, line: u64) -> bool {
    let word = put(to, b"refused 1 at line ");
    let place = put_number(to, line);
    word & place & put(to, b"\n")
}

// The line for an opening: its file and its one or two buffers.
fn put_row(to: Stdout, row: u32) -> bool {
    let file = put_number(to, (row / 65536 % 256) as u64);
    let blank = put(to, b" ");
    let first = put_number(to, (row % 256) as u64);
    let mut good = file & blank & first;
    if row / 16777216 == 2 {
        let gap = put(to, b" ");
        let second = put_number(to, (row / 256 % 256) as u64);
        good = good & gap & second;
    }
    good & put(to, b"\n")
}

fn put_proposal(to: Stdout, p: Proposal) -> bool {
    let word = put(to, b"size ");
    let size = put_number(to, p.size as u64);
    let end = put(to, b"\n");
    word & size & end && p.rows.iter().take(p.count).all(|row| put_row(to, *row))
}

// The proposal, or that no pool within the limit will do.
fn put_plan(to: Stdout, planned: Result<Proposal, NoPlan>) -> bool {
    match planned {
        Ok(proposal) => put_proposal(to, proposal),
        Err(_) => put(to, b"refused 19\n"),
    }
}

// What a list comes to. Line 1 is the limit, and the first event is on line 2.
fn answer(to: Stdout, limit: u8, events: &[u8]) -> bool {
    match judge(limit, events) {
        Ok(()) => put_plan(to, plan(limit, events)),
        Err(ListFault::Limit) => refused_at(to, 1),
        Err(ListFault::Event(i)) => refused_at(to, wrapping_add_u64(i as u64, 2)),
    }
}

fn main(rt: HostRuntime) {
    let mut text = large_buffer();
    let n = read_full(&mut rt.stdin(), &mut text);
    let mut events = [0u8; ROOM];
    let list = read_list(&text[..n], &mut events);
    if !answer(rt.stdout(), list.limit, &events[..list.count]) {
        write_all(rt.stderr(), b"plan: the plan cannot be written\n");
    }
}
