//! Tests of `polygons`.
#![tactic(auto)]

#[cfg(test)]
mod tests;
