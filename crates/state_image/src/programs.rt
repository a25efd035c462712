// What runs and was interrupted, and what stands with each unit, as bytes of an image.
ghost use Rattle.std.specs.Prelude.{◌≡◌, ◌+◌, ◌*◌, ◌≤◌, length, drop};
ghost use Rattle.area.specs.Parts.{paste};
ghost use Rattle.channel.specs.Units.{unit_count};
ghost use Rattle.routines.specs.Posts.{empty_post};
ghost use Rattle.state_image.specs.Routines.{program_size, program_row, program_codec, pushed_codec, programs_codec, post_size, post_row, post_codec, unit_posts_codec, posts_codec, empty_posts, all_posts_codec, routines_codec};

use channel::{CHANNELS, UNITS};
use codec::put_bytes;
use routines::{DEPTH, Due, Post, Posts, Program, Programs, Routines, main_program, nothing_due};

// The bytes of a program, and of what runs with the push-down list.
const PROGRAM: usize = 4;

const PROGRAMS: usize = 1 + (PROGRAM + DEPTH * PROGRAM);

// The bytes of what stands with a unit.
pub const POST: usize = 4;

// The bytes of all of it.
pub const ROUTINE_BYTES: usize = PROGRAMS + CHANNELS * (UNITS * POST);

fn program_row(p: Program) -> [u8; PROGRAM]
    ensures { result ≡ program_row p }
{
    [p.rank, p.channel, p.unit, p.routine]
}

// Puts the bytes of a program into the area from byte `at` on.
fn put_program(out: &mut [u8], at: usize, p: Program)
    requires { at + program_size ≤ length out.old }
    ensures { out.new ≡ paste at (program_row p) out.old }
{
    let bytes = program_row(p);
    put_bytes(out, at, &bytes);
}

// The program that stands at byte `at`.
fn program_at(b: &[u8], at: usize) -> Program
    requires { at + program_size ≤ length b.now }
    ensures { result ≡ program_codec.read (drop at b.now) }
{
    Program {
        rank: b[at],
        channel: b[at + 1],
        unit: b[at + 2],
        routine: b[at + 3],
    }
}

// Puts the bytes of the push-down list into the area from byte `at` on.
fn put_pushed(out: &mut [u8], at: usize, pushed: [Program; DEPTH])
    requires { at + pushed_codec.size ≤ length out.old }
    ensures { out.new ≡ paste at (pushed_codec.write pushed) out.old }
{
    let mut to = at;
    for program in pushed.iter() {
        put_program(out, to, *program);
        to += PROGRAM;
    }
}

// The push-down list from byte `start` on.
fn pushed_at(b: &[u8], start: usize) -> [Program; DEPTH]
    requires { start + pushed_codec.size ≤ length b.now }
    ensures { result ≡ pushed_codec.read (drop start b.now) }
{
    let none = main_program();
    let mut pushed = [none; DEPTH];
    let mut at = start;
    for program in pushed.iter_mut() {
        let p = program_at(b, at);
        *program = p;
        at += PROGRAM;
    }
    pushed
}

// Puts the bytes of what runs and of the push-down list into the area from byte `at` on.
fn put_programs(out: &mut [u8], at: usize, p: Programs)
    requires { at + programs_codec.size ≤ length out.old }
    ensures { out.new ≡ paste at (programs_codec.write p) out.old }
{
    let x = p.running;
    let pushed = p.pushed;
    let head = [p.count];
    put_bytes(out, at, &head);
    put_program(out, at + 1, x);
    put_pushed(out, at + 1 + PROGRAM, pushed);
}

// What runs and the push-down list, from byte `at` on.
fn programs_at(b: &[u8], at: usize) -> Programs
    requires { at + programs_codec.size ≤ length b.now }
    ensures { result ≡ programs_codec.read (drop at b.now) }
{
    let count = b[at];
    let running = program_at(b, at + 1);
    let pushed = pushed_at(b, at + 1 + PROGRAM);
    Programs {
        running,
        pushed,
        count,
    }
}

fn post_row(x: Post) -> [u8; POST]
    ensures { result ≡ post_row x }
{
    [x.named.rank, x.named.routine, x.due.rank, x.due.routine]
}

// Puts the bytes of what stands with a unit into the area from byte `at` on.
fn put_post(out: &mut [u8], at: usize, x: Post)
    requires { at + post_size ≤ length out.old }
    ensures { out.new ≡ paste at (post_row x) out.old }
{
    let bytes = post_row(x);
    put_bytes(out, at, &bytes);
}

// What stands with the unit whose bytes are at `at`.
fn post_at(b: &[u8], at: usize) -> Post
    requires { at + post_size ≤ length b.now }
    ensures { result ≡ post_codec.read (drop at b.now) }
{
    let named = Due {
        rank: b[at],
        routine: b[at + 1],
    };
    let due = Due {
        rank: b[at + 2],
        routine: b[at + 3],
    };
    Post { named, due }
}

// With a unit stands nothing.
fn no_post() -> Post
    ensures { result ≡ empty_post }
{
    let none = nothing_due();
    Post {
        named: none,
        due: none,
    }
}

// Nothing stands with the units of a channel.
fn no_posts() -> Posts
    ensures { result ≡ empty_posts }
{
    let blank = no_post();
    let units = [blank; UNITS];
    Posts { units }
}

// Puts the bytes of what stands with the first n units of a channel into the area from byte `at` on.
fn put_unit_posts(out: &mut [u8], at: usize, units: [Post; UNITS], n: usize)
    requires { (n ≤ unit_count) × (at + n * post_size ≤ length out.old) }
    ensures { out.new ≡ paste at ((unit_posts_codec n).write units) out.old }
{
    let mut to = at;
    for i in 0..n {
        put_post(out, to, units[i]);
        to += POST;
    }
}

// What stands with the first n units of a channel, from byte `start` on.
fn unit_posts_at(b: &[u8], start: usize, n: usize) -> [Post; UNITS]
    requires { (n ≤ unit_count) × (start + n * post_size ≤ length b.now) }
    ensures { result ≡ (unit_posts_codec n).read (drop start b.now) }
{
    let blank = no_post();
    let mut units = [blank; UNITS];
    let mut at = start;
    for i in 0..n {
        let x = post_at(b, at);
        units[i] = x;
        at += POST;
    }
    units
}

// Puts the bytes of what stands with the units of every channel, n of each, into the area from byte `at` on.
fn put_posts(out: &mut [u8], at: usize, posts: [Posts; CHANNELS], n: usize)
    requires { (n ≤ unit_count) × (at + (all_posts_codec n).size ≤ length out.old) }
    ensures { out.new ≡ paste at ((all_posts_codec n).write posts) out.old }
{
    let size = n * POST;
    let mut to = at;
    for channel in posts.iter() {
        put_unit_posts(out, to, channel.units, n);
        to += size;
    }
}

// What stands with the units of every channel, n of each, from byte `start` on.
fn posts_at(b: &[u8], start: usize, n: usize) -> [Posts; CHANNELS]
    requires { (n ≤ unit_count) × (start + (all_posts_codec n).size ≤ length b.now) }
    ensures { result ≡ (all_posts_codec n).read (drop start b.now) }
{
    let none = no_posts();
    let mut posts = [none; CHANNELS];
    let size = n * POST;
    let mut at = start;
    for channel in posts.iter_mut() {
        let units = unit_posts_at(b, at, n);
        *channel = Posts { units };
        at += size;
    }
    posts
}

// Puts the bytes of the routines of a state with n units on each channel into the area from byte `at` on.
pub fn put_routines(out: &mut [u8], at: usize, r: Routines, n: usize)
    requires { (n ≤ unit_count) × (at + (routines_codec n).size ≤ length out.old) }
    ensures { out.new ≡ paste at ((routines_codec n).write r) out.old }
{
    put_programs(out, at, r.programs);
    put_posts(out, at + PROGRAMS, r.posts, n);
}

// The routines of a state with n units on each channel, from byte `at` on.
pub fn routines_at(b: &[u8], at: usize, n: usize) -> Routines
    requires { (n ≤ unit_count) × (at + (routines_codec n).size ≤ length b.now) }
    ensures { result ≡ (routines_codec n).read (drop at b.now) }
{
    let programs = programs_at(b, at);
    let posts = posts_at(b, at + PROGRAMS, n);
    Routines { programs, posts }
}
