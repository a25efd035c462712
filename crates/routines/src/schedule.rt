// The program scheduler: a look for a routine to enter, and the return of the one that runs. `best` is the highest waiting routine.
ghost use Rattle.std.specs.Prelude.{◌≡◌, ◌-◌};
ghost use Rattle.routines.specs.Schedule.{look_of, last_pushed, resumed_of, given_back};

use crate::ranks::main_program;
use crate::{DEPTH, Program, Programs, Scheduled};

// A look: the waiting routine is entered if nothing is frozen, it is above what runs and the list has room; what ran goes on the list.
#[tactic(auto, unfolding(crate::specs::Schedule::look_of, crate::specs::Schedule::enters, crate::specs::Schedule::interrupted_by))]
pub fn look(p: Programs, frozen: bool, best: Program) -> Scheduled
    ensures { result ≡ look_of p frozen best }
{
    let n = p.count as usize;
    let enters = !frozen && p.running.rank < best.rank && n < DEPTH;
    let mut programs = p;
    if enters {
        programs.pushed[n] = p.running;
        programs.running = best;
        programs.count += 1;
    }
    Scheduled {
        entered: enters,
        programs,
    }
}

// The program last pushed.
fn last_pushed(p: Programs) -> Program
    ensures { result ≡ last_pushed p }
{
    let n = p.count.saturating_sub(1) as usize;
    if n < DEPTH {
        p.pushed[n]
    } else {
        main_program()
    }
}

// The program last pushed runs again, and leaves the list.
#[tactic(auto, unfolding(crate::specs::Schedule::resumed_of))]
fn resumed(p: Programs) -> Programs
    ensures { result ≡ resumed_of p }
{
    let count = p.count.saturating_sub(1);
    let n = count as usize;
    let mut t = Programs {
        running: last_pushed(p),
        count,
        ..p
    };
    if n < DEPTH {
        t.pushed[n] = main_program();
    }
    t
}

// The return of the routine that runs: the waiting one is entered if nothing is frozen and it is above the program last pushed; else that program resumes.
#[tactic(auto, unfolding(crate::specs::Schedule::given_back, crate::specs::Schedule::enters_on_return))]
pub fn give_back(p: Programs, frozen: bool, best: Program) -> Scheduled
    ensures { result ≡ given_back p frozen best }
{
    if !frozen && last_pushed(p).rank < best.rank {
        return Scheduled {
            entered: true,
            programs: Programs { running: best, ..p },
        };
    }
    Scheduled {
        entered: false,
        programs: resumed(p),
    }
}
