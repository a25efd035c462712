// Whether the channels are sound, and each open file fits its unit: what a unit's turn says, what is requested of a file, and what of a channel.
ghost use Rattle.std.specs.Prelude.{◌≡◌, ◌&&◌, ◌≤◌};
ghost use Rattle.channel_outcomes.specs.Rules.{row_of};
ghost use Rattle.channel.specs.Units.{is_working, unit_works, unit_count};
ghost use Rattle.state_sound.specs.Requests.{requested as requestedOf, is_none, is_read_op, is_write_op, op_fits, is_read, is_write, fits_output, is_waiting, is_read as read_of};
ghost use Rattle.state_sound.specs.Soundness.{is_at_start, position_in_range, noise_known, noise_right, position_right, in_limit, unit_waits, works_right};
ghost use Rattle.state_sound.specs.Judged.{is_counted, turn_right, unit_right, file_ready, file_fits, unit_served, channel_right};
ghost use Rattle.area.specs.Lists.{all_of, one_if, any_of, count_of};
ghost use Rattle.area.specs.Numbered.{all_from};
ghost use Rattle.pool.specs.Serving.{serves as servesUnit};

use crate::files::taken_count;
use channel::{Channel, Op, Position, Request, Turn, UNITS, Unit, is_declared, turn_of};
use channel_outcomes::{MOST_PASSED, attempt_limit, noise_limit};
use file::File;
use file_input::has_full;
use pool::{FILES, serves};
use state::{CHANNELS, channel_in};

// The operation of a unit's request, whether it is worked for or waits.
fn requested(t: Turn) -> Option<Op>
    ensures { result ≡ requestedOf t }
{
    match t {
        Turn::Idle => None,
        Turn::Waiting(q) | Turn::Displaced(q) | Turn::Working(q) => Some(q.op),
    }
}

fn is_none(x: Option<Op>) -> bool
    ensures { result ≡ is_none x }
{
    matches!(x, None)
}

// Whether a read is requested.
fn is_read(x: Option<Op>) -> bool
    ensures { result ≡ is_read x }
{
    matches!(x, Some(Op::Read))
}

// Whether a write is requested.
fn is_write(x: Option<Op>) -> bool
    ensures { result ≡ is_write x }
{
    matches!(x, Some(Op::Write))
}

// Whether what is requested, if anything is, fits the direction of a file: a read an input file, a write or a mark an output file.
fn fits_output(x: Option<Op>, output: bool) -> bool
    ensures { result ≡ fits_output x output }
{
    match x {
        Some(Op::Read) => !output,
        Some(Op::Write | Op::Mark) => output,
        None => true,
    }
}

fn is_working(t: Turn) -> bool
    ensures { result ≡ is_working t }
{
    matches!(t, Turn::Working(_))
}

// Whether the unit's request waits, displaced or not.
fn is_waiting(t: Turn) -> bool
    ensures { result ≡ is_waiting t }
{
    matches!(t, Turn::Waiting(_) | Turn::Displaced(_))
}

// How many incomplete words the operation meets before one that is permanent.
#[tactic(auto, unfolding(channel_outcomes::specs::Rules::row_of))]
fn incomplete_limit(op: Op) -> u8
    ensures { result ≡ (row_of op).incomplete }
{
    match op {
        Op::Read => 1,
        Op::Write | Op::Mark => 0,
    }
}

// The request's attempt is 1 to its limit, and its incomplete words and noise records are within theirs.
fn is_counted(q: Request) -> bool
    ensures { result ≡ is_counted q }
{
    let most = attempt_limit(q.op);
    let words = incomplete_limit(q.op);
    let noise = noise_limit(q.op);
    (1 <= q.attempts) & ((q.attempts <= most) & ((q.incomplete <= words) & (q.noise <= noise)))
}

fn turn_right(t: Turn) -> bool
    ensures { result ≡ turn_right t }
{
    match t {
        Turn::Idle => true,
        Turn::Waiting(q) | Turn::Displaced(q) | Turn::Working(q) => is_counted(q),
    }
}

// Nothing was passed or met.
fn is_at_start(p: Position) -> bool
    ensures { result ≡ is_at_start p }
{
    (p.marks == 0) & ((p.records == 0) & !p.noisy)
}

// A position's counts are held; that of a unit which is not declared is zero.
fn position_in_range(declared: bool, p: Position) -> bool
    ensures { result ≡ position_in_range declared p }
{
    let zero = is_at_start(p);
    (p.marks <= MOST_PASSED) & ((p.records <= MOST_PASSED) & (declared | zero))
}

fn noise_known(q: Request, p: Position) -> bool
    ensures { result ≡ noise_known q p }
{
    (q.noise == 0) | p.noisy
}

// A request has passed over noise records only on a unit that has met one.
fn noise_right(t: Turn, p: Position) -> bool
    ensures { result ≡ noise_right t p }
{
    match t {
        Turn::Idle => true,
        Turn::Waiting(q) | Turn::Displaced(q) | Turn::Working(q) => noise_known(q, p),
    }
}

// Whether the unit's reel stands where it may.
fn position_right(x: Unit) -> bool
    ensures { result ≡ position_right x }
{
    let inside = position_in_range(x.declared, x.position);
    let noise = noise_right(x.turn, x.position);
    inside & noise
}

// Units are declared in a pool with buffers only; one that is not declared is idle; a request's counts and the unit's position are right.
fn unit_right(m: u8, x: Unit) -> bool
    ensures { result ≡ unit_right m x }
{
    let idle = is_none(requested(x.turn));
    let counts = turn_right(x.turn);
    let stands = position_right(x);
    (!x.declared | (0 < m)) & ((x.declared | idle) & (counts & stands))
}

// Whether the file is ready for what is requested of it: the direction, the buffer that a read alone has taken, a write's full block.
fn file_ready(x: Option<Op>, f: File) -> bool
    ensures { result ≡ file_ready x f }
{
    let way = fits_output(x, f.output);
    let n = taken_count(f);
    let read = u8::from(is_read(x));
    let write = is_write(x);
    let full = has_full(f);
    way & ((n == read) & (!write | full))
}

// Whether the file, if it is open, has a declared unit and is ready for its unit's request.
fn file_fits(channels: [Channel; CHANNELS], f: File) -> bool
    ensures { result ≡ file_fits channels f }
{
    let c = channel_in(channels, f.channel as usize);
    let u = f.unit as usize;
    let known = is_declared(c, u);
    let ready = file_ready(requested(turn_of(c, u)), f);
    !f.opened | (known & ready)
}

// Whether every open file fits its unit.
pub fn files_fit(channels: [Channel; CHANNELS], files: [File; FILES]) -> bool
    ensures { result ≡ all_of (file_fits channels) files }
{
    for f in &files {
        if !file_fits(channels, *f) {
            return false;
        }
    }
    true
}

// Whether every unit is declared and counted as it may be.
fn units_right(m: u8, units: [Unit; UNITS]) -> bool
    ensures { result ≡ all_of (unit_right m) units }
{
    for x in &units {
        if !unit_right(m, *x) {
            return false;
        }
    }
    true
}

// How many requests the channel works for.
fn work_count(units: [Unit; UNITS]) -> usize
    ensures { (result ≡ count_of unit_works units) × (result ≤ unit_count) }
{
    let mut n: usize = 0;
    for x in &units {
        if is_working(x.turn) {
            n += 1;
        }
    }
    n
}

// Whether a request waits.
fn any_waits(units: [Unit; UNITS]) -> bool
    ensures { result ≡ any_of unit_waits units }
{
    for x in &units {
        if is_waiting(x.turn) {
            return true;
        }
    }
    false
}

// Whether the channel works for at most one request, and for one if it is not frozen and any waits.
fn works_right(frozen: bool, units: [Unit; UNITS]) -> bool
    ensures { result ≡ works_right frozen units }
{
    let n = work_count(units);
    let waits = any_waits(units);
    (n <= 1) & (frozen | (!waits | (n == 1)))
}

// Whether an open file is bound to the unit.
fn is_served(files: [File; FILES], number: u8, unit: u8) -> bool
    ensures { result ≡ any_of (servesUnit number unit) files }
{
    for f in &files {
        if serves(*f, number, unit) {
            return true;
        }
    }
    false
}

// Whether the unit, if it has a request, has an open file.
fn unit_served(files: [File; FILES], number: u8, unit: u8, x: Unit) -> bool
    ensures { result ≡ unit_served files number unit x }
{
    is_none(requested(x.turn)) || is_served(files, number, unit)
}

// Whether every unit with a request has an open file.
fn units_served(files: [File; FILES], number: u8, units: [Unit; UNITS]) -> bool
    ensures { result ≡ all_from (unit_served files number) 0 units }
{
    for u in 0..UNITS {
        if !unit_served(files, number, u as u8, units[u]) {
            return false;
        }
    }
    true
}

// Whether a channel is sound by itself and with the files that its units serve.
fn channel_right(m: u8, frozen: bool, files: [File; FILES], number: u8, c: Channel) -> bool
    ensures { result ≡ channel_right m frozen files number c }
{
    let mark = (c.mark as usize) < UNITS;
    let urgent = (c.urgent as usize) < UNITS;
    let right = units_right(m, c.units);
    let works = works_right(frozen, c.units);
    let served = units_served(files, number, c.units);
    (mark & urgent) & (right & (works & served))
}

// Whether every channel is.
pub fn channels_right(
    m: u8,
    frozen: bool,
    files: [File; FILES],
    channels: [Channel; CHANNELS],
) -> bool
    ensures { result ≡ all_from (channel_right m frozen files) 0 channels }
{
    for i in 0..CHANNELS {
        if !channel_right(m, frozen, files, i as u8, channels[i]) {
            return false;
        }
    }
    true
}
