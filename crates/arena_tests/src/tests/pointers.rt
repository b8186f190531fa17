//! Pointer types of the tests: pairs of any index and any generation.

use arena_ptr::{Gen8, Gen32, Inx8, Inx64};
use test_types::{Pair, TinyInx};

// An 8-bit index with an 8-bit generation.
pub(super) type SmallPtr = Pair<Inx8, Gen8>;

// An 8-bit index alone.
pub(super) type BarePtr = Pair<Inx8, ()>;

// A 64-bit index with a 32-bit generation.
pub(super) type WidePtr = Pair<Inx64, Gen32>;

// A one-bit index alone.
pub(super) type TinyPtr = Pair<TinyInx, ()>;
