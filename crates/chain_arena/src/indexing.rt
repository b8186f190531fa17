ghost use Rattle.std.specs.Prelude.{◌≡◌, IsSome, Some};
ghost use Rattle.std.specs.Option.{option_map};
ghost use Rattle.std.specs.Borrow.{Lends, sem};
ghost use Rattle.arena_traits.specs.Arena.{IsValid};
ghost use Rattle.chain_links.specs.ChainArena.{entry, with_value_at};

use crate::chain_arena::ChainArena;
use arena_base::{ArenaSlot, ArenaTrait, proved_unreachable};
use arena_ptr::{InxKey, PtrKey, SlotStack};
use chain_links::LinkNoGen;
use std::ops::{Index, IndexMut};

impl<P: PtrKey, T: Drop, S: SlotStack<Item = ArenaSlot<P, LinkNoGen<P, T>>>> ChainArena<P, T, S> {
    ghost use Rattle.chain_arena.specs.contracts.chain_arena.ChainArena.{the_row as arena_row};

    /// Returns the value at a valid index.
    ///
    /// Port of `ChainArena::get_inx_unwrap`.
    pub fn get_inx_unwrap(&self, i: P::Inx) -> &T
        requires { IsSome (entry self.now (P.Inx.number i)) }
        ensures { option_map (λ e. e.1) (entry self.now (P.Inx.number i)) ≡ Some result.now }
    {
        match self.get_inx(i) {
            Some((_, t)) => t,
            None => proved_unreachable!(),
        }
    }

    /// Returns the value at a valid index, for writing.
    ///
    /// Port of `ChainArena::get_inx_mut_unwrap`.
    pub fn get_inx_mut_unwrap(&mut self, i: P::Inx) -> &mut T
        requires { IsSome (entry self.old (P.Inx.number i)) }
        ensures* writes_back { sem 𝓛 (Lends
            (arena_row P.row T.row S.row P.Inx.row P.Gen.row P.Inx.Word.row
            P.PtrKey P.Inx.InxKey P.Gen.GenKey S.SlotStack)
            T.row self.entry result (with_value_at self.old (P.Inx.number i))) }
        ensures value { option_map (λ e. e.1) (entry self.old (P.Inx.number i)) ≡ Some result.now }
    {
        match self.get_inx_mut(i) {
            Some(t) => t,
            None => proved_unreachable!(),
        }
    }
}

/// Access by a valid pointer.
impl<P: PtrKey, T: Drop, S: SlotStack<Item = ArenaSlot<P, LinkNoGen<P, T>>>> Index<P>
    for ChainArena<P, T, S> {
    ghost use Rattle.arena_traits.specs.Arena.{IsValid};
    ghost use Rattle.chain_links.specs.ChainArena.{entry};

    type Output = T;

    ghost can_index = { λ a p. IsValid (entry a) (P.key p) };

    ghost index_gives = { λ a p t. entry a (P.key p).0 ≡ Some ((P.key p).1, t) };

    fn index(&self, p: P) -> &T {
        self.get(p).unwrap()
    }
}

/// Mutable access by a valid pointer.
impl<P: PtrKey, T: Drop, S: SlotStack<Item = ArenaSlot<P, LinkNoGen<P, T>>>> IndexMut<P>
    for ChainArena<P, T, S> {
    ghost use Rattle.chain_arena.specs.contracts.chain_arena.ChainArena.{the_row as arena_row};

    fn index_mut(&mut self, p: P) -> &mut T
        requires { IsValid (entry self.old) (P.key p) }
        ensures* writes_back { sem 𝓛 (Lends
            (arena_row P.row T.row S.row P.Inx.row P.Gen.row P.Inx.Word.row
            P.PtrKey P.Inx.InxKey P.Gen.GenKey S.SlotStack)
            T.row self.entry result (with_value_at self.old (P.key p).0)) }
        ensures value { entry self.old (P.key p).0 ≡ Some ((P.key p).1, result.now) }
    {
        match self.get_mut(p) {
            Some(t) => t,
            None => proved_unreachable!(),
        }
    }
}
