ghost use Rattle.std.specs.Prelude.{⊤};
ghost use Rattle.arena_base.specs.CopyOutcomes.{MakesOrRefuses, CopiesView, CopiesViewWith};

use crate::arena::Arena;
use crate::copy::ClosureMap;
use crate::slot::ArenaSlot;
use arena_core::{AllocError, PtrKey, ReallocationError, SlotStack};
use arena_traits::ArenaTrait;

/// Makes the values of a copy.
pub trait ValueMap<P, U, T>: Drop {
    ghost is_ready: { Self → Type 0 };

    ghost makes: { Self → P → U → T → Self → Type 0 };

    ghost may_refuse: { P → U → Type 0 };

    /// Returns the value for the copy of an entry.
    ///
    /// # Errors
    ///
    /// - `AllocError`: memory was refused.
    fn map_value(&mut self, p: P, u: &U) -> Result<T, AllocError>
        requires { is_ready self.old }
        ensures { MakesOrRefuses is_ready makes may_refuse self.old p u.now result self.new };
}

/// An arena that can become a copy of an `Arena`.
///
/// Port of `ArenaCloneFromWith`.
pub trait ArenaCloneFromWith<P: PtrKey, T: Drop>: ArenaTrait<P, T> {
    ghost use Rattle.arena_traits.specs.Arena.{Arena as State};

    ghost copies: { (U : Type 0) → State P.Gen U → Self → Self
        → Type 0 } = { λ _ _ _ _. ⊤ };

    /// Becomes a copy of `source`, with values by `values`, called once for each entry, by
    /// ascending index.
    ///
    /// # Errors
    ///
    /// - `BeyondMaxCapacity`: the source has more slots than the maximum.
    /// - `AllocError`: an allocation failed.
    ///
    /// On error, nothing changes; but if memory for a value was refused, the arena is left empty.
    fn clone_from_by<U: Drop, S1: SlotStack<Item = ArenaSlot<P, U>>, M: ValueMap<P, U, T>>(
        &mut self,
        source: &Arena<P, U, S1>,
        values: M,
    ) -> (Result<(), ReallocationError>, M)
        requires { M.is_ready values }
        ensures { CopiesView M.is_ready M.makes M.may_refuse P.key P.Inx.greatest values source.now
            Self.view (copies U) self.old result self.new };

    /// Becomes a copy of `source`, with values by `map`.
    ///
    /// # Errors
    ///
    /// - `BeyondMaxCapacity`: the source has more slots than the maximum.
    /// - `AllocError`: an allocation failed.
    final fn clone_from_with<
        U: Drop,
        S1: SlotStack<Item = ArenaSlot<P, U>>,
        F: FnMut(P, &U) -> T + Drop,
    >(&mut self, source: &Arena<P, U, S1>, map: F) -> Result<(), ReallocationError>
        requires { F.IsAlwaysCallable map }
        ensures { CopiesViewWith F.FnMut P.key P.Inx.greatest map source.now Self.view (copies U)
            self.old result self.new }
    {
        let (done, _) = self.clone_from_by(source, ClosureMap { map });
        done
    }
}
