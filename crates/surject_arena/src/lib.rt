//! Keys in sets with one value each: a union-find whose sets can be listed, shrunk and split.
#![tactic(auto)]

mod clones;
mod compression;
mod histories;
mod iter;
mod key_set;
mod keys;
mod members;
mod surject;
mod values;

pub use histories::{redirects_are_few, sets_are_the_classes};
pub use iter::Iter;
pub use key_set::KeySet;
pub use members::{Counted, Member};
pub use surject::SurjectArena;
