//! Calls on two chain arenas as values.
#![tactic(auto)]

mod calls;
mod runs;
mod steps;

pub use calls::{PairCall, PairReply};
pub use runs::run_pair_calls;
pub use steps::apply_to_pair;
