//! Commands on two arenas of links: the library of `chain_tool`.
#![tactic(auto)]

pub mod command;
mod execute;
mod infallible_text;
mod lexer;
pub mod order;
mod reply_text;
mod session;

pub use session::{ToolError, run, run_on};
