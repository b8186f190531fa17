ghost use Rattle.std.specs.Prelude.{◌≡◌, ◌<◌, ◌^◌, length};
ghost use Rattle.std.specs.Iterator.{YieldsFirstBy, item_count};
ghost use Rattle.chain_arena.specs.Starts.{starts_of, AreStarts};

use crate::chain_arena::ChainArena;
use crate::iterators::links_of;
use arena_base::{ArenaSlot, Iter};
use arena_ptr::{HeapStack, PtrKey, SlotStack};
use chain_links::LinkNoGen;
use std::marker::Model;

/// An iterator over the starts of the linear chains.
#[derive(Drop)]
pub struct Starts<
    'a,
    P: PtrKey,
    T: Drop,
    S: SlotStack<Item = ArenaSlot<P, LinkNoGen<P, T>>> = HeapStack<ArenaSlot<P, LinkNoGen<P, T>>>,
> {
    links: Iter<'a, P, LinkNoGen<P, T>, S>,
}

impl<'a, P: PtrKey, T: Drop, S: SlotStack<Item = ArenaSlot<P, LinkNoGen<P, T>>>> Model
    for Starts<'a, P, T, S> {
    ghost use Rattle.std.specs.Prelude.{ℕ, List};

    ghost Value = { List (ℕ × P.Gen) };

    ghost use Rattle.chain_links.specs.Links.{entry_views};
    ghost use Rattle.chain_arena.specs.Starts.{starts_among};

    ghost view = { λ it. starts_among (entry_views P.Inx.packed_number it.links) };
}

impl<'a, P: PtrKey, T: Drop, S: SlotStack<Item = ArenaSlot<P, LinkNoGen<P, T>>>> Iterator
    for Starts<'a, P, T, S> {
    type Item = P;

    ghost next_gives = { YieldsFirstBy P.key (λ rest. rest) };

    ghost remaining = { item_count (λ rest. rest) };

    fn next(&mut self) -> Option<P> {
        while let Some(item) = self.links.next() {
            if item.1.prev().is_none() {
                return Some(item.0);
            }
        }
        None
    }
}

impl<P: PtrKey, T: Drop, S: SlotStack<Item = ArenaSlot<P, LinkNoGen<P, T>>>> ChainArena<P, T, S> {
    /// Returns the pointers to the starts of the linear chains, in ascending index order.
    ///
    /// Reads each slot once.
    ///
    /// # Examples
    ///
    /// ```rust
    /// let mut arena: ChainArena<ToolPtr, u32> = ChainArena::new(alloc);
    /// let a = arena.insert_reallocating(LinkInsertKind::Disconnected, 1)?;
    /// let b = arena.insert_reallocating(LinkInsertKind::ChainEnd(a), 2)?;
    /// let c = arena.insert_reallocating(LinkInsertKind::ChainEnd(b), 3)?; // 1, 2, 3
    /// arena.break_next(a); // 1 and 2, 3
    /// let mut starts = arena.starts();
    /// assert!(rt; starts.next() == Some(a));
    /// assert!(rt; starts.next() == Some(b));
    /// assert!(rt; starts.next() == None);
    /// ```
    pub fn starts(&self) -> Starts<'_, P, T, S>
        ensures list { result ≡ starts_of self.now }
        ensures starts { AreStarts self.now result }
        ensures fits { length result < 2 ^ 64 }
    {
        self.invariants();
        Starts {
            links: links_of(&self.arena),
        }
    }
}
