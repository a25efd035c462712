// Whether bytes are the image of a sound state, judged where they lie: each file and each unit once, with a bit for each buffer and each unit that was met.
// It reads no state as a whole, and knows nothing of calls.
#![tactic(auto)]

mod files;
mod fits;
mod slots;
