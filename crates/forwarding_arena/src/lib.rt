//! An arena of links that forwards to another arena.
#![tactic(auto)]

mod forwarding;

pub use forwarding::{ForwardingAdvancer, ForwardingArena};
