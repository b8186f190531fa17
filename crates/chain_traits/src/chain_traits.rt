ghost use Rattle.std.specs.Prelude.{◌≡◌, ◌↔◌, ⊤, ℕ, is_some, Option, map, IsTrue, OnSome, IfNone, IfOk, OnErr};
ghost use Rattle.std.specs.Option.{option_map};
ghost use Rattle.arena_core.specs.Invalidation.{value_within};
ghost use Rattle.chain_laws.specs.Chains.{LinkMap, IsWellLinked};
ghost use Rattle.chain_laws.specs.Neighbors.{AreNeighbors, HasOneSetOfChains};
ghost use Rattle.chain_laws.specs.Removals.{with_removal};
ghost use Rattle.chain_laws.specs.Renamings.{IsRenaming};
ghost use Rattle.chain_laws.specs.Arrangements.{place_in};
ghost use Rattle.chain_laws.specs.Walks.{Walker};
ghost use Rattle.chain_laws.specs.declared.insert_kind.InsertKind.{InsertKind};
ghost use Rattle.arena_traits.specs.Entries.{IsSoundView, index_of};
ghost use Rattle.chain_links.specs.CallEffects.{AreNeighborLinks, ReadsLink, ReadsLinkNoGen, ReadsLinkAt, StartsWalk, ConnectsLinks, BreaksPrev, BreaksNext, ExchangesNext, ReversesChain, MovesLinkAfter, SplicesAfter, ArrangesLinks, AreMovedInTurn, RemovesLink, RemovesLinkAt, CompressesLinks};
ghost use Rattle.chain_links.specs.Walkers.{IsPassing};
ghost use Rattle.chain_links.specs.Insertions.{MayInsertIn, InsertsLinkWithin, InsertsLink, InsertsAllowedLink};

use crate::arrange::{can_arrange, move_in_turn};
use arena_ptr::{
    AnyPointer, ChainInsertionError, GenKey, InvalidationOption, InvalidationResult, InxKey,
    PtrKey, ReallocationError,
};
use arena_traits::{Advancer, ArenaTrait};
use chain_links::{Link, LinkInsertKind, LinkNoGen};

/// An arena whose entries are links, each in one linear or cyclic chain.
///
/// Port of `triple_arena::ChainArenaTrait`.
pub trait ChainArenaTrait<P: PtrKey, T: Drop>: ArenaTrait<P, T> {
    /// An advancer along one chain.
    type ChainPtrAdvancer: Advancer<Self, Item = P>;

    ghost interlinks: { Self → LinkMap };

    ghost walker: { Self.ChainPtrAdvancer → Walker };

    ghost inserts: { Self → InsertKind P P.Inx → T → Self → P → Type 0 } = { λ _ _ _ _ _. ⊤ };

    ghost connects: { Self → P → P → Self → Type 0 } = { λ _ _ _ _. ⊤ };

    ghost breaks_prev: { Self → P → Self → Type 0 } = { λ _ _ _. ⊤ };

    ghost breaks_next: { Self → P → Self → Type 0 } = { λ _ _ _. ⊤ };

    ghost exchanges: { Self → P → P → Self → Type 0 } = { λ _ _ _ _. ⊤ };

    ghost reverses: { Self → P → Self → Type 0 } = { λ _ _ _. ⊤ };

    ghost moves: { Self → P → P → Self → Type 0 } = { λ _ _ _ _. ⊤ };

    ghost splices: { Self → P → P → P → Self → Type 0 } = { λ _ _ _ _ _. ⊤ };

    ghost compresses_canonically: { Self → Self → Type 0 } = { λ _ _. ⊤ };

    /// States that the interlinks agree: j follows i exactly if i precedes j. Has no effect.
    final fn agrees(&self)
        ensures { IsWellLinked (interlinks self.now) }
    {
        self.get_inx_link_no_gen(P::invalid().inx());
    }

    /// States that the interlinks agree, and that exactly one set of chains has each link once.
    final fn invariants(&self)
        ensures agree { IsWellLinked (interlinks self.now) }
        ensures one { HasOneSetOfChains (interlinks self.now) }
        ensures sound { IsSoundView P.Inx.greatest (Self.view self.now) }
    {
        self.agrees();
        self.len();
    }

    /// Returns whether the requirement of a kind on the links beside it is met.
    fn can_insert(&self, kind: LinkInsertKind<P>) -> bool
        ensures { IsTrue result ↔ MayInsertIn Self.state interlinks
            ⟦<P as AnyPointer>⟧.pointers self.now kind };

    /// Inserts a link within the capacity and returns its pointer.
    ///
    /// # Errors
    ///
    /// - `FailedLinkRequirement`: `can_insert` is false.
    /// - `NotWithinCapacity`: the arena is full.
    ///
    /// On error, nothing changes and `t` is dropped.
    ///
    /// Port of `ChainArenaTrait::insert_within_capacity`.
    fn insert_within_capacity(
        &mut self,
        kind: LinkInsertKind<P>,
        t: T,
    ) -> Result<P, ChainInsertionError>
        ensures outcome { InsertsLinkWithin Self.state interlinks ⟦<P as AnyPointer>⟧.pointers
            self.old kind t result self.new }
        ensures err { OnErr result (self.new ≡ self.old) }
        ensures implementation { IfOk result (inserts self.old kind t self.new) };

    /// Inserts a link and returns its pointer; a full arena grows first.
    ///
    /// # Errors
    ///
    /// - `FailedLinkRequirement`: `can_insert` is false.
    /// - `BeyondMaxCapacity`: the arena is full at its maximum.
    /// - `AllocError`: an allocation failed, or the greatest index is reached.
    ///
    /// Port of `ChainArenaTrait::insert_reallocating`.
    fn insert_reallocating(
        &mut self,
        kind: LinkInsertKind<P>,
        t: T,
    ) -> Result<P, ChainInsertionError>
        ensures outcome { InsertsLink Self.state interlinks ⟦<P as AnyPointer>⟧.pointers
            self.old kind t result self.new }
        ensures err { OnErr result (self.new ≡ self.old) }
        ensures implementation { IfOk result (inserts self.old kind t self.new) };

    /// Inserts a link of a kind that `can_insert`, as `insert_reallocating` does.
    ///
    /// # Errors
    ///
    /// - `BeyondMaxCapacity`: the arena is full at its maximum.
    /// - `AllocError`: an allocation failed, or the greatest index is reached.
    ///
    /// Port of `ChainArenaTrait::insert`.
    fn insert(&mut self, kind: LinkInsertKind<P>, t: T) -> Result<P, ReallocationError>
        requires { MayInsertIn Self.state interlinks ⟦<P as AnyPointer>⟧.pointers self.old kind }
        ensures outcome { InsertsAllowedLink Self.state interlinks ⟦<P as AnyPointer>⟧.pointers
            self.old kind t result self.new }
        ensures err { OnErr result (self.new ≡ self.old) }
        ensures implementation { IfOk result (inserts self.old kind t self.new) };

    /// Returns whether both pointers are valid and q follows p.
    ///
    /// Port of `ChainArenaTrait::are_neighbors`.
    fn are_neighbors(&self, p: P, q: P) -> bool
        ensures { IsTrue result ↔ AreNeighborLinks Self.state interlinks P.key self.now p q };

    /// Returns whether the link at index j follows the link at index i.
    ///
    /// Port of `ChainArenaTrait::are_neighbors_inx`.
    fn are_neighbors_inx(&self, i: P::Inx, j: P::Inx) -> bool
        ensures { IsTrue result ↔ AreNeighbors (interlinks self.now) (P.Inx.number i)
            (P.Inx.number j) };

    /// Returns a link with the pointers of its neighbors, or `None` if `p` is not valid.
    ///
    /// Port of `ChainArenaTrait::get_link`.
    fn get_link(&self, p: P) -> Option<Link<P, &T>>
        ensures outcome { ReadsLink Self.state interlinks P.key self.now p result }
        ensures agree { IsWellLinked (interlinks self.now) };

    /// Returns a link with the indexes of its neighbors, or `None` if `p` is not valid.
    ///
    /// Port of `ChainArenaTrait::get_link_no_gen`.
    fn get_link_no_gen(&self, p: P) -> Option<&LinkNoGen<P, T>>
        ensures { ReadsLinkNoGen Self.state interlinks ⟦<P as AnyPointer>⟧.pointers self.now p
            result };

    /// Returns the generation of the link at an index and the link, or `None` without one.
    ///
    /// Port of `ChainArenaTrait::get_inx_link_no_gen`.
    fn get_inx_link_no_gen(&self, i: P::Inx) -> Option<(P::Gen, &LinkNoGen<P, T>)>
        ensures link { ReadsLinkAt Self.state interlinks ⟦<P as AnyPointer>⟧.pointers self.now i
            result }
        ensures agree { IsWellLinked (interlinks self.now) };

    /// Returns an advancer along the chain of `p`, or `None` if `p` is not valid.
    ///
    /// It goes from `p` to the end, then from the link before `p` back to the start; a cyclic chain
    /// once around.
    ///
    /// Port of `ChainArenaTrait::advancer_chain`.
    fn advancer_chain(&self, p: P) -> Option<Self::ChainPtrAdvancer>
        ensures { StartsWalk Self.state interlinks P.key walker self.now p result };

    /// Links the end p to the start q; `None` if p is no end or q no start.
    ///
    /// Port of `ChainArenaTrait::connect`.
    fn connect(&mut self, p: P, q: P) -> Option<()>
        ensures outcome { ConnectsLinks Self.state interlinks P.key self.old p q result self.new }
        ensures none { IfNone result (self.new ≡ self.old) }
        ensures implementation { OnSome result (connects self.old p q self.new) };

    /// Disconnects p from its previous link; `None` without one.
    ///
    /// Port of `ChainArenaTrait::break_prev`.
    fn break_prev(&mut self, p: P) -> Option<()>
        ensures outcome { BreaksPrev Self.state interlinks P.key self.old p result self.new }
        ensures none { IfNone result (self.new ≡ self.old) }
        ensures implementation { OnSome result (breaks_prev self.old p self.new) };

    /// Disconnects p from its next link; `None` without one.
    ///
    /// Port of `ChainArenaTrait::break_next`.
    fn break_next(&mut self, p: P) -> Option<()>
        ensures outcome { BreaksNext Self.state interlinks P.key self.old p result self.new }
        ensures none { IfNone result (self.new ≡ self.old) }
        ensures implementation { OnSome result (breaks_next self.old p self.new) };

    /// Exchanges the next links of p and q; `None` unless both have one.
    ///
    /// Port of `ChainArenaTrait::exchange_next`.
    fn exchange_next(&mut self, p: P, q: P) -> Option<()>
        ensures outcome { ExchangesNext Self.state interlinks P.key self.old p q result self.new }
        ensures none { IfNone result (self.new ≡ self.old) }
        ensures implementation { OnSome result (exchanges self.old p q self.new) };

    /// Reverses a chain in O(n); `None` if `p` is invalid.
    ///
    /// # Examples
    ///
    /// ```rust
    /// let mut arena: ChainArena<ToolPtr, u32> = ChainArena::new(alloc);
    /// let a = arena.insert_reallocating(LinkInsertKind::Disconnected, 1)?;
    /// let b = arena.insert_reallocating(LinkInsertKind::ChainEnd(a), 2)?;
    /// let c = arena.insert_reallocating(LinkInsertKind::ChainEnd(b), 3)?; // 1, 2, 3
    /// arena.reverse_chain(b); // 3, 2, 1
    /// assert!(rt; arena.are_neighbors(c, b) && arena.are_neighbors(b, a));
    /// ```
    fn reverse_chain(&mut self, p: P) -> Option<()>
        ensures outcome { ReversesChain Self.state interlinks P.key self.old p result self.new }
        ensures none { IfNone result (self.new ≡ self.old) }
        ensures implementation { OnSome result (reverses self.old p self.new) };

    /// Moves p after q; `None` unless both are valid and distinct.
    ///
    /// # Examples
    ///
    /// ```rust
    /// let mut arena: ChainArena<ToolPtr, u32> = ChainArena::new(alloc);
    /// let a = arena.insert_reallocating(LinkInsertKind::Disconnected, 1)?;
    /// let b = arena.insert_reallocating(LinkInsertKind::ChainEnd(a), 2)?;
    /// let c = arena.insert_reallocating(LinkInsertKind::ChainEnd(b), 3)?; // 1, 2, 3
    /// arena.move_after(a, c); // 2, 3, 1
    /// assert!(rt; arena.are_neighbors(c, a) && !arena.are_neighbors(a, b));
    /// ```
    fn move_after(&mut self, p: P, q: P) -> Option<()>
        ensures outcome { MovesLinkAfter Self.state interlinks P.key self.old p q result self.new }
        ensures none { IfNone result (self.new ≡ self.old) }
        ensures implementation { OnSome result (moves self.old p q self.new) };

    /// Moves a run after p in O(1); `None` if a pointer is invalid or p is `last`.
    ///
    /// A run that is none, or has p, is not detected; the links stay well linked.
    ///
    /// # Examples
    ///
    /// ```rust
    /// let mut arena: ChainArena<ToolPtr, u32> = ChainArena::new(alloc);
    /// let a = arena.insert_reallocating(LinkInsertKind::Disconnected, 1)?;
    /// let b = arena.insert_reallocating(LinkInsertKind::ChainEnd(a), 2)?;
    /// let c = arena.insert_reallocating(LinkInsertKind::ChainEnd(b), 3)?; // 1, 2, 3
    /// let d = arena.insert_reallocating(LinkInsertKind::Disconnected, 4)?;
    /// arena.splice_after(d, a, b); // 4, 1, 2 and 3
    /// assert!(rt; arena.are_neighbors(d, a) && !arena.are_neighbors(b, c));
    /// ```
    fn splice_after(&mut self, p: P, first: P, last: P) -> Option<()>
        ensures outcome { SplicesAfter Self.state interlinks P.key self.old p first last result
            self.new }
        ensures none { IfNone result (self.new ≡ self.old) }
        ensures implementation { OnSome result (splices self.old p first last self.new) };

    /// Moves links behind the first, in order; `None` if a pointer is invalid or equals the next.
    ///
    /// # Examples
    ///
    /// ```rust
    /// let mut arena: ChainArena<ToolPtr, u32> = ChainArena::new(alloc);
    /// let a = arena.insert_reallocating(LinkInsertKind::Disconnected, 3)?;
    /// let b = arena.insert_reallocating(LinkInsertKind::ChainEnd(a), 1)?;
    /// let c = arena.insert_reallocating(LinkInsertKind::ChainEnd(b), 2)?; // 3, 1, 2
    /// let mut keyed = Vec::new(alloc);
    /// if let Some(links) = arena.iter_chain(a) { for (p, link) in links { keyed.push((link.t, p))?; } }
    /// keyed.sort_by_key(|e| e.0)?;
    /// let order: Vec<ToolPtr> = keyed.iter().map(|e| e.1).collect(alloc)?;
    /// arena.arrange_chain(&order); // 1, 2, 3
    /// assert!(rt; arena.are_neighbors(b, c) && arena.are_neighbors(c, a));
    /// ```
    final fn arrange_chain(&mut self, order: &[P]) -> Option<()>
        ensures outcome { ArrangesLinks Self.state interlinks P.key self.old order.now result
            self.new }
        ensures none { IfNone result (self.new ≡ self.old) }
        ensures implementation { OnSome result (AreMovedInTurn moves self.old order.now self.new) }
    {
        if !can_arrange(self, order) {
            return None;
        }
        self.agrees();
        move_in_turn(self, order);
        Some(())
    }

    /// Removes a link and links its neighbors; `InvalidPtr` if `p` is invalid, `GenerationOverflow`
    /// if the counter wrapped.
    ///
    /// Port of `ChainArenaTrait::remove_link_no_gen`.
    fn remove_link_no_gen(&mut self, p: P) -> InvalidationResult<LinkNoGen<P, T>>
        ensures outcome { RemovesLink Self.state interlinks ⟦<P as AnyPointer>⟧.pointers self.old
            p result self.new }
        ensures invalid { IfNone (value_within result) (self.new ≡ self.old) }
        ensures implementation { OnSome (value_within result)
            (Self.removes self.old (P.key p).0 self.new) };

    /// Removes the link at an index, as `remove_link_no_gen` does.
    ///
    /// Port of `ChainArenaTrait::remove_inx_link_no_gen`.
    fn remove_inx_link_no_gen(&mut self, i: P::Inx) -> InvalidationResult<(P::Gen, LinkNoGen<P, T>)>
        ensures outcome { RemovesLinkAt Self.state interlinks ⟦<P as AnyPointer>⟧.pointers
            self.old i result self.new }
        ensures invalid { IfNone (value_within result) (self.new ≡ self.old) }
        ensures implementation { OnSome (value_within result)
            (Self.removes self.old (P.Inx.number i) self.new) };

    /// Moves the chains, by least index, to runs from index 1 on, and increments the counter
    /// (`GenerationOverflow`: it wrapped), or sets it to two if `reset`.
    ///
    /// Port of `ChainArenaTrait::compress_canonical`.
    fn compress_canonical(&mut self, reset: bool) -> InvalidationOption<()>
        ensures outcome { CompressesLinks Self.state interlinks ⟦<P as AnyPointer>⟧.pointers
            self.old reset result self.new }
        ensures implementation { compresses_canonically self.old self.new };

    ghost passes: { (a b : Self.ChainPtrAdvancer) (c : Self) (r : Option P)
        → Self.ChainPtrAdvancer.gives a c r b → IsPassing (Self.entry c) (interlinks c) (walker a)
        (option_map P.key r) (walker b) };

    ghost links_are_entries: { (a : Self) (i : ℕ) → is_some (interlinks a i) ≡ is_some
        (Self.entry a i) };

    ghost growth_keeps: { (n : ℕ) (a b : Self) → Self.grows n a b → interlinks b ≡ interlinks a };

    ghost write_keeps: { (a b : Self) (i : ℕ) (t : T) → Self.writes a i t b
        → interlinks b ≡ interlinks a };

    ghost renewal_keeps: { (a b : Self) (i : ℕ) → Self.extra_on_invalidate a i b
        → interlinks b ≡ interlinks a };

    ghost removal_removes: { (a b : Self) (i : ℕ) → Self.removes a i b
        → interlinks b ≡ with_removal (interlinks a) i };

    ghost compression_renames: { (a b : Self) → Self.compresses a b
        → IsRenaming (place_in (map index_of (Self.view a).entries)) (interlinks a)
        (interlinks b) };
}
