// Lists and proposals as texts: each line of a list as an event of the planner, each line of a proposal as a row of it.
// It knows what a line says, and nothing of which lists are good and which proposals are accepted: a line that says nothing known becomes an
// event or a row that none accepts.
#![tactic(auto)]

mod fields;
mod lines;

pub use fields::{event_of, row_of};
pub use lines::{read_list, read_proposal};

// A list that was read: its limit, 0 (which the judgement refuses as it refuses a written 0) if the first line is no number, and how many events stand in the room.
#[derive(Clone, Copy)]
pub struct ListRead {
    pub limit: u8,
    pub count: usize,
}

// A proposal that was read: its size, 0 if the first line says none, and how many rows stand in the room.
#[derive(Clone, Copy)]
pub struct ProposalRead {
    pub size: u8,
    pub count: usize,
}
