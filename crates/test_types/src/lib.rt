//! What the tests share: the language of their tables, pointers of any index and generation, an
//! index type of two, a stack that refuses growths, one with a maximum, and a value that writes its
//! format.
#![tactic(auto)]

mod advancers;
pub mod calls;
mod eight_slots;
mod failing_stack;
mod format_probe;
pub mod lines;
pub mod numbered;
mod pair;
mod tiny_index;

pub use eight_slots::EightSlots;
pub use failing_stack::FailingStack;
pub use format_probe::FormatProbe;
pub use pair::Pair;
pub use tiny_index::TinyInx;
