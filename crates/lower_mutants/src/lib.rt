//! Forwarding wrappers for functions of the crates below `chain_arena`.
//!
//! Each has the clauses of the original contract that its mutants break. Each edit of `must-fail/`
//! replaces a body with a mutant and checks that these clauses reject it; little has to be proved
//! here for that.
#![tactic(auto)]

mod layouts;
mod links;
mod stacks;
mod trait_calls;

pub use layouts::arrange;
pub use links::{join, link_pair};
pub use stacks::{reserve_to, slot_at};
pub use trait_calls::{break_next, compress_canonical, remove_link_no_gen, splice_after};
