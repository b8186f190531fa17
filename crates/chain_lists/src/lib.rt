//! Lists in any arena of links, as words of contracts.
#![tactic(auto)]

mod growth;

pub use growth::reserve;
