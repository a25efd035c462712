// Programs and what is due: the main program, the routine that waits at a unit, and which of two comes first.
ghost use Rattle.std.specs.Prelude.{◌≡◌};
ghost use Rattle.routines.specs.Ranks.{main_program, is_main, nothing_due, is_due, due_named, waiting_at, precedes as comesFirst, higher as higherOf, main_alone};

use crate::{DEPTH, Due, HIGHEST, Program, Programs};

// The main program.
pub fn main_program() -> Program
    ensures { result ≡ main_program }
{
    Program {
        rank: 0,
        channel: 0,
        unit: 0,
        routine: 0,
    }
}

// Whether a program is the main program.
pub fn is_main(p: Program) -> bool
    ensures { result ≡ is_main p }
{
    p.rank == 0
}

// No routine.
pub fn nothing_due() -> Due
    ensures { result ≡ nothing_due }
{
    Due {
        rank: 0,
        routine: 0,
    }
}

// Whether a routine is due, or named.
pub fn is_due(d: Due) -> bool
    ensures { result ≡ is_due d }
{
    0 < d.rank
}

// The routine of that priority and number, if one is named and the priority is one.
#[tactic(auto, unfolding(crate::specs::Ranks::due_named))]
pub fn due_named(named: bool, priority: u8, routine: u8) -> Due
    ensures { result ≡ due_named named priority routine }
{
    if named && priority <= HIGHEST {
        Due {
            rank: priority + 1,
            routine,
        }
    } else {
        nothing_due()
    }
}

// The routine that waits at a unit, as a program; of rank 0 where none does.
pub fn waiting(channel: u8, unit: u8, d: Due) -> Program
    ensures { result ≡ waiting_at channel unit d }
{
    Program {
        rank: d.rank,
        channel,
        unit,
        routine: d.routine,
    }
}

// Whether a comes before b: it is higher, or as high and of a lower channel, or of the same and of a lower unit.
fn precedes(a: Program, b: Program) -> bool
    ensures { result ≡ comesFirst a b }
{
    (b.rank, a.channel, a.unit) < (a.rank, b.channel, b.unit)
}

// The one of two that comes first.
pub fn higher(a: Program, b: Program) -> Program
    ensures { result ≡ higherOf a b }
{
    if precedes(b, a) { b } else { a }
}

// The main program runs, and nothing was interrupted.
#[tactic(auto, unfolding(crate::specs::Ranks::main_alone))]
pub fn main_alone() -> Programs
    ensures { result ≡ main_alone }
{
    Programs {
        running: main_program(),
        pushed: [main_program(); DEPTH],
        count: 0,
    }
}
