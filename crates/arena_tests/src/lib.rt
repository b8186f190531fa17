//! Tests of plain arenas, and of arenas of links by their traits.
#![tactic(auto)]

#[cfg(test)]
mod tests;
