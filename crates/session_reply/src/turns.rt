// A frame: what it concerns, at which places of the state that lies, and the call that it makes.
ghost use Rattle.std.specs.Prelude.{◌≡◌, ◌<◌, cond, ltb};
ghost use Rattle.state.specs.Places.{channel_count};
ghost use Rattle.session_reply.specs.Places.{place_of, file_or, channel_or, group_of, group_number, named_file, file_number, channel_number, unit_number, channel_for, unit_for, is_return};
ghost use Rattle.session_reply.specs.Turns.{whole_refusal, whole_state, record_of, record_area, binding_of, unasked_change, request_of, request_area, record_at, binding_at, request_at, posted_in, is_still, routine_of};
ghost use Rattle.routines.specs.Posts.{post_at};
ghost use Rattle.pack_start.specs.Fresh.{fresh_refusal, fresh_state};
ghost use Rattle.session_reply.specs.Replies.{masks_of};

use crate::changes::{
    asked, closed, filled, given_back, got, opened, quiet, reported, running, sealed, skipped,
};
use crate::{Change, Group, RoutineTold, Told};
use area::row;
use channel::Channel;
use file::{File, closed_file};
use pack_start::{Masks, fresh_refusal, fresh_state, frozen_state, thawed_state};
use pool::{FILES, file_of};
use routines::{Post, Routines, looked, post_at, with_post};
use session_frame::{Answer, Frame, FreshFrame};
use state::{CHANNELS, State};

// The number past the last file, as a frame would have it.
const NONE: u8 = 16;

// The place of a number below n, 0 for any other: an index that is in range whatever i is.
pub fn index_in(i: usize, n: usize) -> usize
    requires { 0 < n }
    ensures { (result ≡ place_of i n) × (result < n) }
{
    if i < n {
        return i;
    }
    0
}

// The file i, which is f if there is one of that number. It and `channel_or` stay two: each makes its other value only where that is needed.
fn file_or(i: usize, f: File) -> File
    ensures { result ≡ file_or i f }
{
    if i < FILES {
        return f;
    }
    closed_file()
}

// The channel j, which is c if there is one of that number.
fn channel_or(j: usize, c: Channel) -> Channel
    ensures { result ≡ channel_or j c }
{
    if j < CHANNELS {
        return c;
    }
    channel::fresh(0)
}

// What stands at the place of number i below n: the new one, or what stood there if there is none of that number.
fn kept<T: Copy>(i: usize, n: usize, new: T, old: T) -> T
    ensures { result ≡ cond (ltb i n) new old }
{
    if i < n { new } else { old }
}

// The number of the file that a frame concerns, past the last for none.
pub fn file_number(f: Frame, files: [File; FILES]) -> usize
    ensures { result ≡ file_number f files }
{
    match f {
        Frame::Open(q) => q.file as usize,
        Frame::Ask(q) => q.file as usize,
        Frame::Put(q) => q.file as usize,
        Frame::Report(q) => file_of(files, q.channel, q.unit),
        Frame::Close(file) | Frame::Get(file) | Frame::Seal(file) | Frame::Skip(file) => {
            file as usize
        }
        _ => FILES,
    }
}

// The number of the channel that a frame concerns, by the file that it concerns.
fn channel_number(f: Frame, own: u8) -> usize
    ensures { result ≡ channel_number f own }
{
    match f {
        Frame::Open(q) => q.channel as usize,
        Frame::Report(q) => q.channel as usize,
        _ => own as usize,
    }
}

// The number of the unit that a frame concerns, by the file that it concerns.
fn unit_number(f: Frame, own: u8) -> usize
    ensures { result ≡ unit_number f own }
{
    match f {
        Frame::Open(q) => q.unit as usize,
        Frame::Report(q) => q.unit as usize,
        _ => own as usize,
    }
}

// Whether a frame is a return.
fn is_return(f: Frame) -> bool
    ensures { result ≡ is_return f }
{
    matches!(f, Frame::Return)
}

// The group of a frame.
pub fn group_of(f: Frame) -> Group
    ensures { group_number result ≡ group_of f }
{
    match f {
        Frame::Ask(_) | Frame::Report(_) => Group::Request,
        Frame::Open(_) | Frame::Close(_) => Group::Binding,
        Frame::Fresh(_) | Frame::Freeze | Frame::Thaw => Group::Whole,
        Frame::Return | Frame::Running => Group::Routine,
        _ => Group::Record,
    }
}

// The number of the file that a frame names, past the last for none.
pub fn named_file(f: Frame) -> u8
    ensures { result ≡ named_file f }
{
    match f {
        Frame::Open(q) => q.file,
        Frame::Ask(q) => q.file,
        Frame::Put(q) => q.file,
        Frame::Close(file) | Frame::Get(file) | Frame::Seal(file) | Frame::Skip(file) => file,
        _ => NONE,
    }
}

// A fresh start's masks, as the pack takes them.
fn masks_of(masks: session_frame::Masks) -> Masks
    ensures { result ≡ masks_of masks }
{
    Masks {
        a: masks.a,
        b: masks.b,
        c: masks.c,
        d: masks.d,
        e: masks.e,
    }
}

// The refusal of a fresh start with an area of n words.
fn start_refusal(unsound: bool, n: usize, q: FreshFrame) -> u8
    ensures { result ≡ fresh_refusal unsound q.m q.w (masks_of q.masks) n }
{
    fresh_refusal(unsound, q.m, q.w, masks_of(q.masks), n)
}

// The state after a fresh start.
fn started(q: FreshFrame) -> State
    ensures { result ≡ fresh_state q.m q.w (masks_of q.masks) }
{
    fresh_state(q.m, q.w, masks_of(q.masks))
}

// The refusal of a frame that concerns the whole state, with an area of n words; 0 for none. It needs no state but the judgement of it.
pub fn whole_refusal(unsound: bool, n: usize, f: Frame) -> u8
    ensures { result ≡ whole_refusal unsound n f }
{
    match f {
        Frame::Fresh(q) => start_refusal(unsound, n, q),
        Frame::Freeze | Frame::Thaw => row(1, unsound, 0),
        _ => 1,
    }
}

// The state after such a frame, if it is accepted.
pub fn whole_state(s: State, f: Frame) -> State
    ensures { result ≡ whole_state s f }
{
    match f {
        Frame::Fresh(q) => started(q),
        Frame::Freeze => frozen_state(s),
        Frame::Thaw => thawed_state(s),
        _ => s,
    }
}

// The call of a frame that concerns one file; a frame that is none is refused.
fn record_of(
    unsound: bool,
    m: u8,
    w: u16,
    frame: Frame,
    f: File,
    area: &mut [u64],
    words: &[u64],
) -> Told
    ensures value { result ≡ record_of unsound m w frame f area.old words.now }
    ensures area_after { area.new ≡ record_area unsound m w frame f area.old words.now }
{
    match frame {
        Frame::Get(file) => got(unsound, m, w, f, file, &area[..]),
        Frame::Put(q) => filled(unsound, m, w, f, q.file, area, words),
        Frame::Seal(file) => sealed(unsound, m, w, f, file, area),
        Frame::Skip(file) => skipped(unsound, f, file),
        _ => quiet(1, f),
    }
}

// Open or close; the files say whether a unit is bound.
fn binding_of(
    unsound: bool,
    w: u16,
    free: u32,
    files: [File; FILES],
    frame: Frame,
    f: File,
    c: Channel,
) -> Told
    ensures { result ≡ binding_of unsound w free files frame f c }
{
    match frame {
        Frame::Open(q) => opened(unsound, w, free, files, f, c, q),
        Frame::Close(file) => closed(unsound, f, c, file),
        _ => quiet(1, f),
    }
}

// A request that is refused, with what was passed.
fn unasked(f: File, c: Channel, p: Post) -> Change
    ensures { result ≡ unasked_change f c p }
{
    Change {
        answer: Answer::Refused(1),
        start: 0,
        count: 0,
        file: f,
        channel: c,
        post: p,
        looks: false,
    }
}

// Ask or report.
fn request_of(
    unsound: bool,
    m: u8,
    w: u16,
    frozen: bool,
    frame: Frame,
    f: File,
    c: Channel,
    p: Post,
    area: &mut [u64],
    words: &[u64],
) -> Change
    ensures value { result ≡ request_of unsound m w frozen frame f c p area.old words.now }
    ensures area_after { area.new ≡ request_area unsound m w frame f c area.old words.now }
{
    match frame {
        Frame::Ask(q) => asked(unsound, frozen, f, c, p, q),
        Frame::Report(q) => reported(unsound, m, w, frozen, f, c, p, q, area, words),
        _ => unasked(f, c, p),
    }
}

// The call of a frame that concerns one file, where `old` stands at the place of file i: what stands there after it.
pub fn record_on(
    unsound: bool,
    m: u8,
    w: u16,
    frame: Frame,
    i: usize,
    old: File,
    area: &mut [u64],
    words: &[u64],
) -> Told
    ensures value { result ≡ record_at unsound m w frame i old area.old words.now }
    ensures area_after { area.new ≡ record_area unsound m w frame (file_or i old) area.old words.now }
{
    if i < FILES {
        return record_of(unsound, m, w, frame, old, area, words);
    }
    let f = file_or(i, old);
    let x = record_of(unsound, m, w, frame, f, area, words);
    let file = kept(i, FILES, x.file, old);
    Told { file, ..x }
}

// The place of the channel that a frame concerns, where `old` stands at the place of its file i.
pub fn channel_place(frame: Frame, i: usize, old: File) -> usize
    ensures { (result ≡ place_of (channel_for frame i old) channel_count) × (result < channel_count) }
{
    let f = file_or(i, old);
    let j = channel_number(frame, f.channel);
    index_in(j, CHANNELS)
}

// Open or close, where `old` and `was` stand at the places of the file i and of the channel.
pub fn binding_on(
    unsound: bool,
    w: u16,
    free: u32,
    files: [File; FILES],
    frame: Frame,
    i: usize,
    old: File,
    was: Channel,
) -> Told
    ensures { result ≡ binding_at unsound w free files frame i old was }
{
    let f = file_or(i, old);
    let j = channel_number(frame, f.channel);
    if (i < FILES) & (j < CHANNELS) {
        return binding_of(unsound, w, free, files, frame, old, was);
    }
    let c = channel_or(j, was);
    let x = binding_of(unsound, w, free, files, frame, f, c);
    let file = kept(i, FILES, x.file, old);
    Told { file, ..x }
}

// Ask or report, where `old` and `was` stand at the places of the file i and of the channel: what stands there after it.
pub fn request_on(
    unsound: bool,
    m: u8,
    w: u16,
    frozen: bool,
    frame: Frame,
    i: usize,
    old: File,
    was: Channel,
    p: Post,
    area: &mut [u64],
    words: &[u64],
) -> Change
    ensures value { result ≡ request_at unsound m w frozen frame i old was p area.old words.now }
    ensures area_after { area.new ≡ request_area unsound m w frame (file_or i old) (channel_or (channel_for frame i old) was) area.old words.now }
{
    let f = file_or(i, old);
    let j = channel_number(frame, f.channel);
    if (i < FILES) & (j < CHANNELS) {
        return request_of(unsound, m, w, frozen, frame, old, was, p, area, words);
    }
    let c = channel_or(j, was);
    let x = request_of(unsound, m, w, frozen, frame, f, c, p, area, words);
    let file = kept(i, FILES, x.file, old);
    let channel = kept(j, CHANNELS, x.channel, was);
    Change { file, channel, ..x }
}

// The post of the unit that a frame concerns, where `old` stands at the place of its file i.
pub fn post_for(frame: Frame, i: usize, old: File, r: Routines) -> Post
    ensures { result ≡ post_at r (channel_for frame i old) (unit_for frame i old) }
{
    let f = file_or(i, old);
    let j = channel_number(frame, f.channel);
    let u = unit_number(frame, f.unit);
    post_at(r, j, u)
}

// Whether a request leaves the routines as they are: the post is as it was, and the scheduler does not look.
pub fn is_still(old: Post, new: Post, looks: bool) -> bool
    ensures { result ≡ is_still old new looks }
{
    ((old.named.rank == new.named.rank) & (old.named.routine == new.named.routine))
        & (((old.due.rank == new.due.rank) & (old.due.routine == new.due.routine)) & !looks)
}

// The routines with that post at the unit that a frame concerns, and after a look if there is one.
pub fn posted(
    r: Routines,
    frozen: bool,
    frame: Frame,
    i: usize,
    old: File,
    p: Post,
    looks: bool,
) -> Routines
    ensures { result ≡ posted_in r frozen (channel_for frame i old) (unit_for frame i old) p looks }
{
    let f = file_or(i, old);
    let j = channel_number(frame, f.channel);
    let u = unit_number(frame, f.unit);
    let t = with_post(r, j, u, p);
    if looks {
        return looked(t, frozen);
    }
    t
}

// Return; of every other frame, what runs.
pub fn routine_on(unsound: bool, frozen: bool, r: Routines, frame: Frame) -> RoutineTold
    ensures { result ≡ routine_of unsound frozen r frame }
{
    if is_return(frame) {
        return given_back(unsound, frozen, r);
    }
    running(unsound, r)
}
