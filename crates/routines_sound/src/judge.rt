// The judgement of the routines: each program's unit, each unit's post, and the highest that waits.
ghost use Rattle.std.specs.Prelude.{◌≡◌};
ghost use Rattle.area.specs.Lists.{all_of};
ghost use Rattle.area.specs.Numbered.{all_from};
ghost use Rattle.channel.specs.Units.{declared_at, has_request};
ghost use Rattle.routines.specs.Right.{unit_known, units_known, post_right, posts_right};
ghost use Rattle.routines_sound.specs.Beside.{declared_in, request_in, routines_beside};

use channel::{CHANNELS, Channel, UNITS, has_request, is_declared};
use routines::{
    DEPTH, Post, Posts, Program, Programs, Routines, due_right, highest_in, is_due, is_main,
    is_settled, programs_right,
};
use state::channel_in;

// Whether the unit of a program is declared; the main program has none.
fn unit_known(channels: [Channel; CHANNELS], p: Program) -> bool
    ensures { result ≡ unit_known (declared_in channels) p }
{
    is_main(p) || is_declared(channel_in(channels, p.channel as usize), p.unit as usize)
}

// Whether the unit of every pushed program is.
fn all_known(channels: [Channel; CHANNELS], pushed: [Program; DEPTH]) -> bool
    ensures { result ≡ all_of (unit_known (declared_in channels)) pushed }
{
    pushed.iter().all(|p| unit_known(channels, *p))
}

// Whether a unit's post is right, by whether the unit is declared and has a request.
#[tactic(auto, unfolding(routines::specs::Right::post_right))]
fn post_right(declared: bool, asked: bool, x: Post) -> bool
    ensures { result ≡ post_right declared asked x }
{
    due_right(x.named)
        && due_right(x.due)
        && (!is_due(x.named) || asked)
        && (!is_due(x.due) || (declared && !asked))
}

// Whether the posts of a channel's units are. The unit's number is asked for too, so the loop goes over numbers.
fn all_posts(c: Channel, units: [Post; UNITS]) -> bool
    ensures { result ≡ all_from (λ u x. post_right (declared_at c u) (has_request c u) x) 0 units }
{
    for u in 0..UNITS {
        if !post_right(is_declared(c, u), has_request(c, u), units[u]) {
            return false;
        }
    }
    true
}

#[tactic(auto, unfolding(routines::specs::Right::posts_right))]
fn posts_right(c: Channel, x: Posts) -> bool
    ensures { result ≡ posts_right (declared_at c) (has_request c) x }
{
    all_posts(c, x.units)
}

// Whether those of every channel are.
fn table_right(channels: [Channel; CHANNELS], posts: [Posts; CHANNELS]) -> bool
    ensures { result ≡ all_from (λ c p. posts_right (declared_in channels c) (request_in channels c) p) 0 posts }
{
    for i in 0..CHANNELS {
        if !posts_right(channel_in(channels, i), posts[i]) {
            return false;
        }
    }
    true
}

// Whether the unit of what runs, and of all that was interrupted, is declared.
#[tactic(auto, unfolding(routines::specs::Right::units_known))]
fn units_known(channels: [Channel; CHANNELS], p: Programs) -> bool
    ensures { result ≡ units_known (declared_in channels) p }
{
    unit_known(channels, p.running) && all_known(channels, p.pushed)
}

// Whether the routines are right beside the channels.
#[tactic(auto, unfolding(crate::specs::Beside::routines_beside, routines::specs::Right::routines_right))]
pub fn routines_right(channels: [Channel; CHANNELS], frozen: bool, r: Routines) -> bool
    ensures { result ≡ routines_beside channels frozen r }
{
    programs_right(r.programs)
        && units_known(channels, r.programs)
        && table_right(channels, r.posts)
        && is_settled(r.programs, frozen, highest_in(r.posts))
}
