//! The commands of the program `schedule`, over any reader and writer.
#![tactic(auto)]

pub mod line;
pub mod refusal;
pub mod scheduler;
pub mod session;
mod turns;
