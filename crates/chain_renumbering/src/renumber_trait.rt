//! The trait of renumberings.

ghost use Rattle.std.specs.Prelude.{◌≡◌, IfOk, OnErr};
ghost use Rattle.chain_renumbering.specs.MoveTables.{new_key_of};
ghost use Rattle.chain_renumbering.specs.Renumbering.{IsRenumbered};

use crate::renumbering::{Renumbering, renumber};
use arena_base::ArenaSlot;
use arena_ptr::{GenKey, PtrKey, SlotStack};
use chain_arena::{ChainArena, LinkNoGen};
use chain_traits::ChainArenaTrait;
use std::alloc::{AllocError, Global};

/// An arena of links that can be renumbered.
///
/// Not in `triple_arena`.
pub trait RenumberChainArenaTrait<P: PtrKey, T: Drop>: ChainArenaTrait<P, T> {
    /// Renumbers all links, as the function `renumber` does.
    ///
    /// # Errors
    ///
    /// - `AllocError`: an allocation failed. Nothing changes then.
    fn renumber(&mut self, alloc: Global) -> Result<Renumbering<P>, AllocError>
        ensures renumbered { IfOk result (λ moved. IsRenumbered P.Gen.first P.Gen.following
            Self.view Self.entry Self.interlinks self.old self.new
            (new_key_of P.key P.Gen.same moved)) }
        ensures err { OnErr result (self.new ≡ self.old) };
}

impl<
    P: PtrKey,
    T: Drop,
    S: SlotStack<Item = ArenaSlot<P, LinkNoGen<P, T>>>,
> RenumberChainArenaTrait<P, T> for ChainArena<P, T, S> {
    fn renumber(&mut self, alloc: Global) -> Result<Renumbering<P>, AllocError> {
        renumber(self, alloc)
    }
}
