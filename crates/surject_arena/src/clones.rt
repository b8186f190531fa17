// Copies of a surjection arena.
ghost use Rattle.std.specs.Prelude.{◌≡◌};
ghost use Rattle.surject_arena.specs.SetCalls.{CopiesSets};

use crate::members::{Counted, Member};
use crate::surject::SurjectArena;
use arena_ptr::{PtrKey, ReallocationError};
use arena_traits::CloneArenaTrait;
use chain_traits::CloneChainArenaTrait;
use std::alloc::{AllocError, Global};
use std::marker::PhantomData;

impl<P: PtrKey, K: Clone> Clone for Member<P, K> {
    ghost use Rattle.std.specs.Prelude.{◌≡◌};

    ghost is_clone = { λ m n. K.is_clone m.key n.key × (n.set ≡ m.set) };

    ghost is_infallible = { λ m. K.is_infallible m.key };

    fn clone(&self) -> Result<Self, AllocError> {
        Ok(Member {
            key: self.key.clone()?,
            set: self.set,
        })
    }
}

impl<V: Clone> Clone for Counted<V> {
    ghost use Rattle.std.specs.Prelude.{◌≡◌};

    ghost is_clone = { λ c d. V.is_clone c.value d.value × (d.size ≡ c.size) };

    ghost is_infallible = { λ c. V.is_infallible c.value };

    fn clone(&self) -> Result<Self, AllocError> {
        Ok(Counted {
            value: self.value.clone()?,
            size: self.size,
        })
    }
}

impl<
    P: PtrKey,
    K: Clone,
    V: Clone,
    A: CloneChainArenaTrait<P, Member<P, K>> + Drop,
    B: CloneArenaTrait<P, Counted<V>> + Drop,
> SurjectArena<P, K, V, A, B> {
    /// Returns a copy with the same pointers and clones, which have to be equal, but without a
    /// maximum.
    ///
    /// # Errors
    ///
    /// - `BeyondMaxCapacity`: there are more slots than a new maximum.
    /// - `AllocError`: an allocation failed.
    pub fn clone(&self, alloc: Global) -> Result<Self, ReallocationError>
        requires keys_equal { (x y : K) → K.is_clone x y → y ≡ x }
        requires values_equal { (x y : V) → V.is_clone x y → y ≡ x }
        ensures { CopiesSets P.Inx.greatest A.initial_maximum B.initial_maximum self.now result }
    {
        let keys = self.keys.try_clone(alloc)?;
        let values = self.values.try_clone(alloc)?;
        Ok(SurjectArena {
            keys,
            values,
            redirected: self.redirected,
            of: PhantomData,
        })
    }
}
