ghost use Rattle.std.specs.Prelude.{◌≡◌, ℕ, ⊤, Option, IfOk};
ghost use Rattle.chain_traits.specs.Clones.{CopiesLinks};

use crate::chain_traits::ChainArenaTrait;
use arena_ptr::{PtrKey, ReallocationError};
use std::alloc::Global;

/// An arena of links that can be cloned.
pub trait CloneChainArenaTrait<P: PtrKey, T: Clone>: ChainArenaTrait<P, T> {
    ghost initial_maximum: { Option ℕ };

    ghost clones: { Self → Self → Type 0 } = { λ _ _. ⊤ };

    /// Returns a clone with the same pointers and chains, without a maximum.
    ///
    /// # Errors
    ///
    /// - `BeyondMaxCapacity`: there are more slots than the maximum of new slots.
    /// - `AllocError`: there are slots, and an allocation failed.
    fn try_clone(&self, alloc: Global) -> Result<Self, ReallocationError>
        requires clones_equal { (x y : T) → T.is_clone x y → y ≡ x }
        ensures outcome { CopiesLinks Self.view Self.interlinks P.Inx.greatest initial_maximum
            self.now result }
        ensures implementation { IfOk result (clones self.now) };
}
