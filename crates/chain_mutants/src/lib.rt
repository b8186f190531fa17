//! Forwarding wrappers of calls of arenas, of the crates on top of them and of `chain_commands`.
//!
//! Each has the clauses of the original contract that its mutants break. Each edit of `must-fail/`
//! replaces a body with a mutant and checks that these clauses reject it; little has to be proved
//! here for that.
#![tactic(auto)]

mod lists;
mod own_calls;
mod queues;
mod renumbering;
mod rings;
mod session;

pub use lists::move_after;
pub use own_calls::{
    compress_canonical_counted, remove_chain, transfer_canonical_reallocating, transfer_chain,
};
pub use queues::{cancel, spawn};
pub use renumbering::new_pointer;
pub use rings::{exchange, split};
pub use session::run_on;
