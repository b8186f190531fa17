//! Functions on any arena of links.
#![tactic(auto)]

pub mod tutorial;
