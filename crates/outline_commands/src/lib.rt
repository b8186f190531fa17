//! The commands of the program `outline`, an editor of outlines, over any reader and writer.
#![tactic(auto)]

pub mod command_error;
pub mod editor;
pub mod line;
mod paragraphs;
pub mod refusal;
mod renumbering;
pub mod session;
pub mod undo;
