// What the calls of a pack do to its routines: an ask names one, an answer makes it due and looks, a thaw looks, and a return gives back.
ghost use Rattle.std.specs.Prelude.{◌≡◌};
ghost use Rattle.routines.specs.Posts.{waits_in};
ghost use Rattle.routines.specs.Changes.{asked_in, made_due_in, scheduled_in, looked_in, answered_in, gave_back_in};

use crate::ranks::{is_due, nothing_due};
use crate::schedule::{give_back, look};
use crate::table::{highest_in, post_at, with_post};
use crate::{Back, Due, Post, Routines, Scheduled};

// Whether a routine waits at the unit.
#[tactic(auto, using(crate::proofs::Laws::Table::due_at_lem))]
pub fn waits_at(r: Routines, channel: usize, unit: usize) -> bool
    ensures { result ≡ waits_in r channel unit }
{
    is_due(post_at(r, channel, unit).due)
}

// A request of the unit that names what is given.
#[tactic(auto, unfolding(crate::specs::Changes::asked_in))]
pub fn asked(r: Routines, channel: usize, unit: usize, d: Due) -> Routines
    ensures { result ≡ asked_in r channel unit d }
{
    let post = Post {
        named: d,
        ..post_at(r, channel, unit)
    };
    with_post(r, channel, unit, post)
}

// What the scheduler did: what it entered waits no longer.
#[tactic(auto, unfolding(crate::specs::Changes::scheduled_in, crate::specs::Changes::cleared_in))]
fn scheduled(r: Routines, s: Scheduled) -> Routines
    ensures { result ≡ scheduled_in r s }
{
    let t = Routines {
        programs: s.programs,
        ..r
    };
    if !s.entered {
        return t;
    }
    let channel = s.programs.running.channel as usize;
    let unit = s.programs.running.unit as usize;
    let post = Post {
        due: nothing_due(),
        ..post_at(t, channel, unit)
    };
    with_post(t, channel, unit, post)
}

// A look.
#[tactic(auto, unfolding(crate::specs::Changes::looked_in))]
pub fn looked(r: Routines, frozen: bool) -> Routines
    ensures { result ≡ looked_in r frozen }
{
    scheduled(r, look(r.programs, frozen, highest_in(r.posts)))
}

// What the unit's request names waits there, and no request names it.
#[tactic(auto, unfolding(crate::specs::Changes::made_due_in))]
fn made_due(r: Routines, channel: usize, unit: usize) -> Routines
    ensures { result ≡ made_due_in r channel unit }
{
    let post = Post {
        named: nothing_due(),
        due: post_at(r, channel, unit).named,
    };
    with_post(r, channel, unit, post)
}

// A report that answers the request of the unit, and the look after it.
#[tactic(auto, unfolding(crate::specs::Changes::answered_in))]
pub fn answered(r: Routines, frozen: bool, channel: usize, unit: usize) -> Routines
    ensures { result ≡ answered_in r frozen channel unit }
{
    if is_due(post_at(r, channel, unit).named) {
        looked(made_due(r, channel, unit), frozen)
    } else {
        r
    }
}

// The return of the routine that runs.
#[tactic(auto, unfolding(crate::specs::Changes::gave_back_in))]
pub fn gave_back(r: Routines, frozen: bool) -> Back
    ensures { result ≡ gave_back_in r frozen }
{
    let s = give_back(r.programs, frozen, highest_in(r.posts));
    Back {
        entered: s.entered,
        routines: scheduled(r, s),
    }
}
