//! Tests of numbers, pointers, results and slot stacks, and of links.
#![tactic(auto)]

#[cfg(test)]
mod tests;
