// Whether a state that a caller passes back is sound: document 01's paragraph, for any state. The files are judged each by itself and every two
// of them, then the channels, and each request against its file; the special routines beside the channels in `routines_sound`. It knows nothing of what a call does.
#![tactic(auto)]

mod channels;
mod files;
mod sound;

pub use sound::is_sound;
