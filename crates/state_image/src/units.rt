// A unit and a channel as bytes of an image.
ghost use Rattle.std.specs.Prelude.{◌≡◌, false, ◌+◌, ◌*◌, ◌≤◌, length, drop};
ghost use Rattle.area.specs.Parts.{paste};
ghost use Rattle.channel.specs.Units.{unit_count};
ghost use Rattle.state_image.specs.Units.{turn_byte, request_in, turn_of, op_byte, op_of, unit_size, unit_row, unit_bytes, request_from, position_from, unit_codec, channel_row, units_codec, channel_codec};
ghost use Rattle.state_image.specs.Images.{channels_codec};

use channel::{Channel, Op, Position, Request, Turn, UNITS, Unit};
use codec::{put_bytes, two_at};
use state::CHANNELS;

// The bytes of a unit, and of a channel's own numbers.
pub const UNIT: usize = 12;

pub const CHANNEL_OWN: usize = 2;

// The bytes of a channel with all its units.
pub const CHANNEL: usize = CHANNEL_OWN + UNITS * UNIT;

fn turn_byte(t: Turn) -> u8
    ensures { result ≡ turn_byte t }
{
    match t {
        Turn::Idle => 0,
        Turn::Waiting(_) => 1,
        Turn::Displaced(_) => 2,
        Turn::Working(_) => 3,
    }
}

// The request of a unit; all zero where it has none.
fn request_in(t: Turn) -> Request
    ensures { result ≡ request_in t }
{
    match t {
        Turn::Idle => Request {
            op: Op::Read,
            priority: false,
            attempts: 0,
            incomplete: 0,
            noise: 0,
        },
        Turn::Waiting(q) | Turn::Displaced(q) | Turn::Working(q) => q,
    }
}

fn turn_of(n: u8, q: Request) -> Turn
    ensures { result ≡ turn_of n q }
{
    if n == 0 {
        return Turn::Idle;
    }
    if n == 1 {
        return Turn::Waiting(q);
    }
    if n == 2 {
        return Turn::Displaced(q);
    }
    Turn::Working(q)
}

fn op_byte(op: Op) -> u8
    ensures { result ≡ op_byte op }
{
    match op {
        Op::Read => 0,
        Op::Write => 1,
        Op::Mark => 2,
    }
}

fn op_of(n: u8) -> Op
    ensures { result ≡ op_of n }
{
    if n == 0 {
        return Op::Read;
    }
    if n == 1 {
        return Op::Write;
    }
    Op::Mark
}

// The bytes of a unit, by how it stands, its request and where its reel stands.
fn unit_row(u: Unit, kind: u8, op: u8, q: Request, p: Position) -> [u8; UNIT]
    ensures { result ≡ unit_row u kind op q p }
{
    [
        u.declared as u8,
        kind,
        op,
        q.priority as u8,
        q.attempts,
        q.incomplete,
        q.noise,
        p.noisy as u8,
        (p.marks % 256) as u8,
        (p.marks / 256) as u8,
        (p.records % 256) as u8,
        (p.records / 256) as u8,
    ]
}

// Puts the bytes of a unit into the area from byte `at` on.
fn put_unit(out: &mut [u8], at: usize, u: Unit)
    requires { at + unit_size ≤ length out.old }
    ensures { out.new ≡ paste at (unit_bytes u) out.old }
{
    let t = u.turn;
    let q = request_in(t);
    let o = q.op;
    let p = u.position;
    let kind = turn_byte(t);
    let op = op_byte(o);
    let bytes = unit_row(u, kind, op, q, p);
    put_bytes(out, at, &bytes);
}

// The request of the unit that stands at byte `at`.
fn request_at(b: &[u8], at: usize) -> Request
    requires { at + unit_size ≤ length b.now }
    ensures { result ≡ request_from (drop at b.now) }
{
    let op = op_of(b[at + 2]);
    Request {
        op,
        priority: b[at + 3] == 1,
        attempts: b[at + 4],
        incomplete: b[at + 5],
        noise: b[at + 6],
    }
}

// Where the reel of that unit stands.
fn position_at(b: &[u8], at: usize) -> Position
    requires { at + unit_size ≤ length b.now }
    ensures { result ≡ position_from (drop at b.now) }
{
    let marks = two_at(b, at + 8);
    let records = two_at(b, at + 10);
    Position {
        marks,
        records,
        noisy: b[at + 7] == 1,
    }
}

// The unit that stands at byte `at`.
pub fn unit_at(b: &[u8], at: usize) -> Unit
    requires { at + unit_size ≤ length b.now }
    ensures { result ≡ unit_codec.read (drop at b.now) }
{
    let q = request_at(b, at);
    let position = position_at(b, at);
    let turn = turn_of(b[at + 1], q);
    Unit {
        declared: b[at] == 1,
        turn,
        position,
    }
}

// Puts the bytes of the first n units into the area from byte `at` on.
fn put_units(out: &mut [u8], at: usize, units: [Unit; UNITS], n: usize)
    requires { (n ≤ unit_count) × (at + n * unit_size ≤ length out.old) }
    ensures { out.new ≡ paste at ((units_codec n).write units) out.old }
{
    let mut to = at;
    for i in 0..n {
        put_unit(out, to, units[i]);
        to += UNIT;
    }
}

// The first n units from byte `start` on; those from n on are not declared, and their reels stand at the start.
fn units_at(b: &[u8], start: usize, n: usize) -> [Unit; UNITS]
    requires { (n ≤ unit_count) × (start + n * unit_size ≤ length b.now) }
    ensures { result ≡ (units_codec n).read (drop start b.now) }
{
    let position = Position {
        marks: 0,
        records: 0,
        noisy: false,
    };
    let blank = Unit {
        declared: false,
        turn: Turn::Idle,
        position,
    };
    let mut units = [blank; UNITS];
    let mut at = start;
    for i in 0..n {
        let u = unit_at(b, at);
        units[i] = u;
        at += UNIT;
    }
    units
}

// The bytes of a channel's own numbers.
fn channel_row(c: Channel) -> [u8; CHANNEL_OWN]
    ensures { result ≡ channel_row c }
{
    [c.mark, c.urgent]
}

// Puts the bytes of a channel of n units into the area from byte `at` on.
pub fn put_channel(out: &mut [u8], at: usize, c: Channel, n: usize)
    requires { (n ≤ unit_count) × (at + (channel_codec n).size ≤ length out.old) }
    ensures { out.new ≡ paste at ((channel_codec n).write c) out.old }
{
    let own = channel_row(c);
    put_bytes(out, at, &own);
    put_units(out, at + CHANNEL_OWN, c.units, n);
}

// The channel of n units that stands at byte `at`.
pub fn channel_at(b: &[u8], at: usize, n: usize) -> Channel
    requires { (n ≤ unit_count) × (at + (channel_codec n).size ≤ length b.now) }
    ensures { result ≡ (channel_codec n).read (drop at b.now) }
{
    let units = units_at(b, at + CHANNEL_OWN, n);
    Channel {
        units,
        mark: b[at],
        urgent: b[at + 1],
    }
}

// Puts the bytes of the channels into the area from byte `at` on.
pub fn put_channels(out: &mut [u8], at: usize, channels: [Channel; CHANNELS], n: usize)
    requires { (n ≤ unit_count) × (at + (channels_codec n).size ≤ length out.old) }
    ensures { out.new ≡ paste at ((channels_codec n).write channels) out.old }
{
    let size = CHANNEL_OWN + n * UNIT;
    let mut to = at;
    for channel in channels.iter() {
        put_channel(out, to, *channel, n);
        to += size;
    }
}

// The channels of n units each from byte `start` on.
pub fn channels_at(b: &[u8], start: usize, n: usize) -> [Channel; CHANNELS]
    requires { (n ≤ unit_count) × (start + (channels_codec n).size ≤ length b.now) }
    ensures { result ≡ (channels_codec n).read (drop start b.now) }
{
    let none = channel::fresh(0);
    let mut channels = [none; CHANNELS];
    let size = CHANNEL_OWN + n * UNIT;
    let mut at = start;
    for channel in channels.iter_mut() {
        let c = channel_at(b, at, n);
        *channel = c;
        at += size;
    }
    channels
}
