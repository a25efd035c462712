// Ask: a read, a write or a mark of a file's unit.
ghost use Rattle.std.specs.Prelude.{◌≡◌};
ghost use Rattle.call_request.specs.Ask.{op_of, ask_rows_by, asked_file, ask_on};
ghost use Rattle.area.specs.Refusals.{lowest};
ghost use Rattle.call_request.specs.Moves.{rest_move, ask_moved};

use crate::{AskChange, AskMove};
use area::row;
use channel::{Channel, Op, Unit, is_idle, unit_of};
use channel_turns::{Desk, Move, ask_move, desk_of, moved_to};
use file::File;
use file_input::{has_empty, has_full, took_buffer};
use file_output::has_unsent;
use routines::{Naming, naming_wrong};

// The numbers of the operations.
const READ: u8 = 0;

const WRITE: u8 = 1;

const MARK: u8 = 2;

fn op_of(op: u8) -> Op
    ensures { result ≡ op_of op }
{
    if op == READ {
        return Op::Read;
    }
    if op == WRITE {
        return Op::Write;
    }
    Op::Mark
}

// The refusal of an ask, 0 for none. `wrong` is what the caller found of row 1, `busy` whether the file's unit has a
// request, `waits` whether a routine waits there.
fn ask_refusal(
    wrong: bool,
    f: File,
    busy: bool,
    op: u8,
    priority: u8,
    naming: Naming,
    waits: bool,
) -> u8
    ensures { result ≡ lowest (ask_rows_by wrong f busy op priority naming waits) }
{
    let empty = has_empty(f);
    let full = has_full(f);
    let unsent = has_unsent(f);
    let off = naming_wrong(naming);
    let read = op == READ;
    let write = op == WRITE;
    let mark = op == MARK;
    let c1 = wrong | ((MARK < op) | ((1 < priority) | off));
    let c5 = !f.opened;
    let c6 = (read & f.output) | ((write | mark) & !f.output);
    let c8 = busy | waits;
    let c9 = (read & !empty) | (write & !full);
    let c10 = read & f.marked;
    let c15 = mark & unsent;
    row(
        1,
        c1,
        row(
            5,
            c5,
            row(6, c6, row(8, c8, row(9, c9, row(10, c10, row(15, c15, 0))))),
        ),
    )
}

// The file after an accepted ask.
pub fn asked_file(op: u8, f: File) -> File
    ensures { result ≡ asked_file op f }
{
    if op == READ { took_buffer(f) } else { f }
}

// A refusal's change: none.
pub fn rest(x: Unit, d: Desk) -> Move
    ensures { result ≡ rest_move x d }
{
    Move {
        turn: x.turn,
        position: x.position,
        mark: d.mark,
        urgent: d.urgent,
        starts: None,
        working: 0,
    }
}

// An ask of the file f, whose unit stands as x on a channel with the desk d, and the routine that it names. `wrong` says that its number or the state that
// it comes from is refused 1, `waits` that a routine waits at the file's unit.
pub fn ask_moved(
    wrong: bool,
    f: File,
    x: Unit,
    d: Desk,
    op: u8,
    priority: u8,
    naming: Naming,
    waits: bool,
    frozen: bool,
) -> AskMove
    ensures { result ≡ ask_moved wrong f x d op priority naming waits frozen }
{
    let busy = !is_idle(x.turn);
    let refusal = ask_refusal(wrong, f, busy, op, priority, naming, waits);
    if refusal != 0 {
        return AskMove {
            refusal,
            change: rest(x, d),
        };
    }
    AskMove {
        refusal: 0,
        change: ask_move(x, f.unit as usize, d, op_of(op), priority == 1, frozen),
    }
}

// The same on the channel c: the file and the channel after it.
pub fn ask_on(
    wrong: bool,
    f: File,
    c: Channel,
    op: u8,
    priority: u8,
    naming: Naming,
    waits: bool,
    frozen: bool,
) -> AskChange
    ensures { result ≡ ask_on wrong f c op priority naming waits frozen }
{
    let u = f.unit as usize;
    let x = unit_of(c, u);
    let d = desk_of(c);
    let a = ask_moved(wrong, f, x, d, op, priority, naming, waits, frozen);
    if a.refusal != 0 {
        return AskChange {
            refusal: a.refusal,
            working: 0,
            file: f,
            channel: c,
        };
    }
    AskChange {
        refusal: 0,
        working: a.change.working,
        file: asked_file(op, f),
        channel: moved_to(c, u, a.change),
    }
}
