//! Tests of `triangulation`.
#![tactic(auto)]

#[cfg(test)]
mod polygon_tests;
#[cfg(test)]
mod tests;
