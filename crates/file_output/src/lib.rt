// Output on one file: its part-filled block, when that is complete, and the file with it sealed; which buffer a put adds to; which block a
// write sends; and the file after each. It knows nothing of channels, of other files, or of the words of an area.
#![tactic(auto)]

mod parts;
mod puts;
mod sends;

pub use parts::{has_part, is_complete, part_length, part_start, sealed};
pub use puts::{added, after_put, has_room, put_start};
pub use sends::{after_write, has_unsent, send_start, send_words};
