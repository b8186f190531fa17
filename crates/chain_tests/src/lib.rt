//! Tests of the inherent calls of a chain arena, and of lists of calls.
#![tactic(auto)]

#[cfg(test)]
mod tests;
