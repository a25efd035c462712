// Fresh start, freeze and thaw: each judges its row of the refusal table and answers the state after it. None writes a word.
#![tactic(auto)]

mod freeze_thaw;
mod fresh_start;

pub use freeze_thaw::{freeze, frozen_state, thaw, thawed_state};
pub use fresh_start::{fresh, fresh_refusal, fresh_state};

// The unit masks of a fresh start, for the manual's channels A to E: bit u declares unit u.
#[derive(Clone, Copy)]
pub struct Masks {
    pub a: u16,
    pub b: u16,
    pub c: u16,
    pub d: u16,
    pub e: u16,
}
