//! Chains, and laws about them.
#![tactic(auto)]

pub mod cut;
pub mod exchange;
pub mod frame;
pub mod insert_kind;
pub mod insertion;
pub mod join;
pub mod membership;
pub mod move_after;
pub mod order;
pub mod partition;
pub mod removal;
pub mod renaming;
pub mod reversal;
pub mod splice;
pub mod transfer;
pub mod walks;
pub mod walks_back;
