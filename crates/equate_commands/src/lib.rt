//! The commands of the program `equate`, over any reader and writer.
#![tactic(auto)]

pub mod equations;
pub mod line;
pub mod session;
