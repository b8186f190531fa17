//! Programs that respond to the lines of standard input.
#![tactic(auto)]

mod lines;
mod status;

pub use lines::{LineSession, MAX_LINE, RunError, run_lines};
pub use status::{Status, status_of};
