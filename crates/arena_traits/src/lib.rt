//! The traits of arenas, and their calls' effects.
#![tactic(auto)]

mod cursor;
mod entry_laws;
mod traits;

pub use cursor::Cursor;
pub use entry_laws::{entries_determine_occupancy, writes_change_one_value};
pub use traits::{Advancer, ArenaTrait, CloneArenaTrait, CompactArenaTrait, PlainArenaTrait};
