//! Tests of the functions that the guide to proofs explains, and of renumbering.
#![tactic(auto)]

#[cfg(test)]
mod tests;
