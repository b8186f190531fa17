//! Functions on one arena type.
#![tactic(auto)]

pub mod named_type;
