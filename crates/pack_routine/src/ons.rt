// Return and what runs, on the routines alone.
ghost use Rattle.std.specs.Prelude.{◌≡◌};
ghost use Rattle.pack_routine.specs.Ons.{refused_change, return_refusal, return_on, running_on};

use crate::RoutineChange;
use area::row;
use routines::{Routines, gave_back, is_main, main_program};

// A refused call: the number alone, and what was passed.
fn refused(refusal: u8, r: Routines) -> RoutineChange
    ensures { result ≡ refused_change refusal r }
{
    RoutineChange {
        refusal,
        entered: false,
        program: main_program(),
        routines: r,
    }
}

// The refusal of a return, 0 for none: the state is unsound, or no routine runs.
fn return_refusal(wrong: bool, r: Routines) -> u8
    ensures { result ≡ return_refusal wrong r }
{
    let none = is_main(r.programs.running);
    row(1, wrong, row(18, none, 0))
}

// The routine that runs is gone: the highest waiting one is entered if it is above the program last pushed, else that program resumes. `wrong` says that the
// state is refused 1.
pub fn return_on(wrong: bool, frozen: bool, r: Routines) -> RoutineChange
    ensures { result ≡ return_on wrong frozen r }
{
    let no = return_refusal(wrong, r);
    if no != 0 {
        return refused(no, r);
    }
    let back = gave_back(r, frozen);
    RoutineChange {
        refusal: 0,
        entered: back.entered,
        program: back.routines.programs.running,
        routines: back.routines,
    }
}

// The program that runs. `wrong` says that the state is refused 1.
pub fn running_on(wrong: bool, r: Routines) -> RoutineChange
    ensures { result ≡ running_on wrong r }
{
    let no = row(1, wrong, 0);
    if no != 0 {
        return refused(no, r);
    }
    RoutineChange {
        refusal: 0,
        entered: false,
        program: r.programs.running,
        routines: r,
    }
}
