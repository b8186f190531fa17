ghost use Rattle.std.specs.Prelude.{◌≡◌, ◌≤◌, ◌+◌, length, replicate, All, false, IfOk};
ghost use Rattle.arena_traits.specs.Arena.{IsValid};
ghost use Rattle.chain_links.specs.ChainArena.{entry};
ghost use Rattle.chain_arena.specs.ChainHeads.{AreAllHeads, MarksChain, MarksWalk};

use crate::chain_arena::ChainArena;
use crate::iterators::links_of;
use arena_base::{ArenaSlot, proved_unreachable};
use arena_ptr::{AllocError, InxKey, PtrKey, SlotStack};
use chain_linking::ChainIter;
use chain_links::LinkNoGen;
use std::alloc::Allocator;

/// The first link of a chain.
#[derive(Clone, Copy, Debug, PartialEq, Eq)]
pub struct ChainHead<P> {
    /// The start of a linear chain, or the least index of a cyclic one.
    pub first: P,
    pub is_cyclic: bool,
}

fn place_of<P: PtrKey>(p: P) -> usize
    ensures { result + 1 ≡ (P.key p).0 }
{
    match p.inx().try_into_usize() {
        Some(i) => i - 1,
        None => proved_unreachable!(),
    }
}

fn mark_walk<P: PtrKey, T: Drop, S: SlotStack<Item = ArenaSlot<P, LinkNoGen<P, T>>>>(
    links: ChainIter<'_, P, T, S>,
    p: P,
    marks: &mut [bool],
) -> ChainHead<P>
    requires { All (λ e. e.0 ≤ length marks.old) links }
    ensures { MarksWalk P.key p links.entry marks.old result marks.new }
{
    let mut head = ChainHead {
        first: p,
        is_cyclic: true,
    };
    for (q, link) in links {
        marks[place_of(q)] = true;
        if link.prev().is_none() {
            head = ChainHead {
                first: q,
                is_cyclic: false,
            };
        }
    }
    head
}

fn no_marks<A: Allocator>(alloc: A, n: usize) -> Result<Vec<bool, A>, AllocError>
    ensures { IfOk result (λ marks. marks.items ≡ replicate n false) }
{
    let mut marks = Vec::new(alloc);
    marks.resize(n, false)?;
    Ok(marks)
}

impl<P: PtrKey, T: Drop, S: SlotStack<Item = ArenaSlot<P, LinkNoGen<P, T>>>> ChainArena<P, T, S> {
    /// Returns the first link of each chain, by ascending least index.
    ///
    /// Reads each slot once and each link at most twice more, which is not proved. Allocates a
    /// temporary mark per slot.
    ///
    /// # Errors
    ///
    /// - `AllocError`: an allocation failed.
    ///
    /// # Examples
    ///
    /// ```rust
    /// let mut arena: ChainArena<ToolPtr, u32> = ChainArena::new(alloc);
    /// let a = arena.insert_reallocating(LinkInsertKind::Disconnected, 1)?;
    /// let b = arena.insert_reallocating(LinkInsertKind::ChainEnd(a), 2)?;
    /// let c = arena.insert_reallocating(LinkInsertKind::ChainEnd(b), 3)?; // 1, 2, 3
    /// arena.break_next(b); // 1, 2 and 3
    /// arena.connect(b, a); // the first is a ring now
    /// let heads = arena.chains(alloc)?;
    /// assert!(rt; heads.len() == 2 && heads[0].first == a && heads[0].is_cyclic);
    /// assert!(rt; heads[1].first == c && !heads[1].is_cyclic);
    /// ```
    pub fn chains<A: Allocator + Clone>(&self, alloc: A) -> Result<Vec<ChainHead<P>, A>, AllocError>
        ensures { IfOk result (λ heads. AreAllHeads P.key self.now heads.items) }
    {
        let mut marks = no_marks(alloc.clone()?, self.backing().len())?;
        let mut heads = Vec::new(alloc);
        for (p, _) in links_of(&self.arena) {
            if !marks[place_of(p)] {
                heads.push(self.mark_chain(p, &mut marks))?;
            }
        }
        Ok(heads)
    }

    fn mark_chain(&self, p: P, marks: &mut [bool]) -> ChainHead<P>
        requires valid { IsValid (entry self.now) (P.key p) }
        requires long { length self.now.slots ≤ length marks.old }
        ensures { MarksChain P.key self.now (P.key p).0 marks.old result marks.new }
    {
        match self.iter_chain(p) {
            Some(links) => mark_walk(links, p, marks),
            None => proved_unreachable!(),
        }
    }
}
