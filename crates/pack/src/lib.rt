// The pack: the thirteen calls under one roof, with the state that they take and hand back and what each of them answers. This is all that a
// caller names in its code; its line of crates.txt also lists the crates that declare the types.
// `answer` is all thirteen in one function, over a call as a value: its contract is `answer_of`, which every theorem speaks of.
// In `specs/` are the thirteen calls as values, what each makes of a state and an area, the refusal table, and histories of calls; the theorems over
// them are what the crate `demands` cites.
#![tactic(auto)]

mod answers;

pub use answers::{answer, shown_words};
pub use call_record::got_words;
pub use channel_outcomes::NO_LENGTH;
pub use file::File;
pub use file_input::{Got, got_count, got_found, got_number, got_start};
pub use pack_open::{close, open};
pub use pack_record::{Getting, get, get_words, put, seal, skip};
pub use pack_request::{Asking, Reporting, ask, report, reported_words};
pub use pack_routine::{Ran, give_back, what_runs};
pub use pack_start::{Masks, freeze, fresh, thaw};
pub use routines::{Naming, Program, no_naming};
pub use state::{Called, State, before_start};
pub use state_sound::is_sound;
use word::Checked;

// Any of the thirteen calls, by its numbers, in the order of document 01's frames, return and what runs last; `size` is B and `rlen` is r. A call that names a file alone holds
// that file's number. The words of a report and of a put are lent beside it.
#[derive(Clone, Copy)]
pub enum AnyCall {
    Fresh {
        m: u8,
        w: u16,
        masks: Masks,
    },
    Open {
        file: u8,
        channel: u8,
        unit: u8,
        flags: u8,
        size: u16,
        rlen: u16,
    },
    Close(u8),
    Ask {
        file: u8,
        op: u8,
        priority: u8,
        naming: Naming,
    },
    Report {
        channel: u8,
        unit: u8,
        outcome: u8,
        length: u32,
    },
    Get(u8),
    Put(u8),
    Seal(u8),
    Skip(u8),
    Freeze,
    Thaw,
    Return,
    Running,
}

// What an answer adds to the refusal: nothing; the channel's working unit; a report's result, check error and working unit; what get found; whether a return
// entered a waiting routine, and what runs after it; what runs.
#[derive(Clone, Copy)]
pub enum Adds {
    Nothing,
    Working(u8),
    Reported {
        result: u8,
        delivery: Option<Checked>,
        working: u8,
    },
    Found(Got),
    Returned {
        entered: bool,
        program: Program,
    },
    Runs(Program),
}

// The answer to any call: the refusal, 0 for none; what it adds; where the words that it shows begin in the area, and how many they are; the
// state after the call.
#[derive(Clone, Copy)]
pub struct AnyAnswer {
    pub refusal: u8,
    pub adds: Adds,
    pub start: usize,
    pub count: usize,
    pub state: State,
}
