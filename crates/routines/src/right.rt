// Whether what runs, what was interrupted and what is due are as they may be.
ghost use Rattle.std.specs.Prelude.{◌≡◌, ◌≤◌, drop};
ghost use Rattle.area.specs.Lists.{all_of};
ghost use Rattle.routines.specs.Ranks.{depth, is_main, under};
ghost use Rattle.routines.specs.Right.{due_right, program_right, descends as descendsTo, programs_right, is_settled};

use crate::ranks::is_main;
use crate::{DEPTH, Due, Program, Programs, TOP};

// A rank in its range, and no number where there is no routine.
pub fn due_right(d: Due) -> bool
    ensures { result ≡ due_right d }
{
    d.rank <= TOP && (0 < d.rank || d.routine == 0)
}

// The same of a program; the main program has no channel, unit or number.
fn program_right(p: Program) -> bool
    ensures { result ≡ program_right p }
{
    p.rank <= TOP && (0 < p.rank || (p.channel == 0 && p.unit == 0 && p.routine == 0))
}

// Whether every place of the list is as it may be.
#[tactic(auto, using(crate::proofs::Laws::Lists::all_listed))]
fn all_right(pushed: [Program; DEPTH]) -> bool
    ensures { result ≡ all_of program_right pushed }
{
    pushed.iter().all(|x| program_right(*x))
}

// Whether no routine stands past the end of the list.
#[tactic(auto, using(crate::proofs::Laws::Lists::all_listed))]
fn none_past(pushed: [Program; DEPTH], count: usize) -> bool
    ensures { result ≡ all_of is_main (drop count pushed) }
{
    pushed.iter().skip(count).all(|x| is_main(*x))
}

// Whether ranks fall strictly from what runs to the bottom of the list, and it is the main program that is lowest.
fn descends(running: Program, pushed: [Program; DEPTH], count: usize) -> bool
    requires { count ≤ depth }
    ensures { result ≡ descendsTo running (under pushed count) }
{
    let mut above = running;
    for i in (0..count).rev() {
        if above.rank <= pushed[i].rank {
            return false;
        }
        above = pushed[i];
    }
    above.rank == 0
}

// Whether what runs and the push-down list are as they may be.
#[tactic(auto, unfolding(crate::specs::Right::programs_right))]
pub fn programs_right(p: Programs) -> bool
    ensures { result ≡ programs_right p }
{
    let n = p.count as usize;
    n <= DEPTH
        && program_right(p.running)
        && all_right(p.pushed)
        && none_past(p.pushed, n)
        && descends(p.running, p.pushed, n)
}

// Whether nothing is left to enter: the highest waiting routine is not above what runs, unless all is frozen or the list is full.
#[tactic(auto, unfolding(crate::specs::Right::is_settled))]
pub fn is_settled(p: Programs, frozen: bool, best: Program) -> bool
    ensures { result ≡ is_settled p frozen best }
{
    frozen || DEPTH <= p.count as usize || best.rank <= p.running.rank
}
