// The check word of a block: sealing a block and judging one as delivered. It knows nothing of files, buffers or channels.
#![tactic(auto)]

pub use blocks::{judge, seal};

pub mod blocks;
