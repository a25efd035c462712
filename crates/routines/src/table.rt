// What stands with the units: what an ask names, no routine anywhere, the post of a unit and another one in its place, and the highest that waits.
ghost use Rattle.std.specs.Prelude.{◌≡◌, map, get_or};
ghost use Rattle.routines.specs.Posts.{no_naming, naming_wrong, due_of, empty_post, no_routines, post_at, due_in, dues_in, with_unit_post, with_post};
ghost use Rattle.routines.specs.Waits.{highest_on, highest};

use crate::ranks::{due_named, higher, main_alone, main_program, nothing_due, waiting};
use crate::{Due, HIGHEST, Naming, Post, Posts, Program, Routines};
use channel::{CHANNELS, UNITS};

// An ask that names no routine.
pub fn no_naming() -> Naming
    ensures { result ≡ no_naming }
{
    Naming {
        given: false,
        routine: 0,
        level: 0,
    }
}

// Whether a routine is named with a priority that is none.
pub fn naming_wrong(n: Naming) -> bool
    ensures { result ≡ naming_wrong n }
{
    n.given && HIGHEST < n.level
}

// What an ask names.
pub fn due_of(n: Naming) -> Due
    ensures { result ≡ due_of n }
{
    due_named(n.given, n.level, n.routine)
}

// A post of a unit whose request names no routine, and where none waits.
fn empty_post() -> Post
    ensures { result ≡ empty_post }
{
    Post {
        named: nothing_due(),
        due: nothing_due(),
    }
}

// The main program runs, nothing was interrupted, no request names a routine and none waits.
#[tactic(auto, unfolding(crate::specs::Posts::no_routines))]
pub fn no_routines() -> Routines
    ensures { result ≡ no_routines }
{
    let units = [empty_post(); UNITS];
    Routines {
        programs: main_alone(),
        posts: [Posts { units }; CHANNELS],
    }
}

// The post of a unit among those of its channel, an empty one past the last.
fn post_of(x: Posts, unit: usize) -> Post
    ensures { result ≡ get_or x.units unit empty_post }
{
    if unit < UNITS {
        x.units[unit]
    } else {
        empty_post()
    }
}

// The post of a unit, an empty one at a number that is no unit's.
#[tactic(auto, using(crate::proofs::Laws::Table::post_beyond))]
pub fn post_at(r: Routines, channel: usize, unit: usize) -> Post
    ensures { result ≡ post_at r channel unit }
{
    if channel < CHANNELS {
        post_of(r.posts[channel], unit)
    } else {
        empty_post()
    }
}

// The posts of a channel's units with another one in the place of that number, unchanged past the last.
#[tactic(auto, using(crate::proofs::Laws::Table::unit_post_beyond))]
fn with_unit_post(x: Posts, unit: usize, p: Post) -> Posts
    ensures { result ≡ with_unit_post x unit p }
{
    let mut y = x;
    if unit < UNITS {
        y.units[unit] = p;
    }
    y
}

// The routines with another post at a unit, unchanged at a number that is no unit's.
#[tactic(auto, using(crate::proofs::Laws::Table::with_post_beyond), unfolding(crate::specs::Posts::with_post))]
pub fn with_post(r: Routines, channel: usize, unit: usize, p: Post) -> Routines
    ensures { result ≡ with_post r channel unit p }
{
    let mut t = r;
    if channel < CHANNELS {
        t.posts[channel] = with_unit_post(r.posts[channel], unit, p);
    }
    t
}

// The highest of the best so far and all that wait at a channel's units.
fn highest_on(units: [Post; UNITS], channel: u8, from: Program) -> Program
    ensures { result ≡ highest_on channel 0 (map due_in units) from }
{
    let mut best = from;
    for i in 0..UNITS {
        best = higher(best, waiting(channel, i as u8, units[i].due));
    }
    best
}

// The highest waiting routine.
pub fn highest_in(posts: [Posts; CHANNELS]) -> Program
    ensures { result ≡ highest (map dues_in posts) }
{
    let mut best = main_program();
    for i in 0..CHANNELS {
        best = highest_on(posts[i].units, i as u8, best);
    }
    best
}
