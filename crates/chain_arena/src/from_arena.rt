ghost use Rattle.std.specs.Prelude.{◌≡◌, MatchResult, codes};
ghost use Rattle.chain_laws.specs.Chains.{IsWellLinked};
ghost use Rattle.chain_links.specs.ChainArena.{link_map};
ghost use Rattle.chain_links.specs.Links.{links_view};

use crate::chain_arena::ChainArena;
use arena_base::{Arena, ArenaSlot};
use arena_ptr::{InxKey, PtrKey, SlotStack};
use chain_linking::destinations::clear_destinations;
use chain_linking::links_agree;
use chain_links::LinkNoGen;

impl<P: PtrKey, T: Drop, S: SlotStack<Item = ArenaSlot<P, LinkNoGen<P, T>>>> ChainArena<P, T, S> {
    /// Converts an arena of links, in time linear in the slots, which is not proved.
    ///
    /// # Errors
    ///
    /// - `interlink transitivity does not hold`: the interlinks do not agree; the arena is dropped.
    ///
    /// Port of `ChainArena::from_arena`.
    pub fn from_arena(arena: Arena<P, LinkNoGen<P, T>, S>) -> Result<Self, &'static str>
        ensures { MatchResult result
            (λ c. IsWellLinked (link_map (links_view P.Inx.packed_number arena))
            × (c ≡ links_view P.Inx.packed_number arena))
            (λ e. (IsWellLinked (link_map (links_view P.Inx.packed_number arena)) → ⊥)
            × (e.now ≡ codes "interlink transitivity does not hold")) }
    {
        if links_agree(&arena) {
            let mut arena = arena;
            clear_destinations(&mut arena);
            Ok(ChainArena { arena })
        } else {
            Err("interlink transitivity does not hold")
        }
    }
}
