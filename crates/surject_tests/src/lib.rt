//! Tests of `surject_arena`.
#![tactic(auto)]

#[cfg(test)]
mod tests;
