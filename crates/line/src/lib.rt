// A printed line for a person: bytes put into it where they fit, a window of the source, and the marks under it. What it
// shows of the source is told by examples (crate `explained`).
#![tactic(auto)]

pub use line::Line;
pub use window::{window_end, window_start};

mod line;
mod source;
mod window;
