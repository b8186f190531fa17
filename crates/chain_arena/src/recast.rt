ghost use Rattle.arena_traits.specs.Arena.{IsValid};
ghost use Rattle.chain_links.specs.ChainArena.{entry};
ghost use Rattle.chain_arena.specs.Recasts.{IsRecastAt};

use crate::chain_arena::ChainArena;
use arena_base::{Advancer, ArenaSlot, ArenaTrait};
use arena_ptr::{PtrKey, Recast, Recaster, SlotStack};
use chain_links::LinkNoGen;

fn recast_at<
    P: PtrKey,
    I,
    T: Recast<I> + Drop,
    S: SlotStack<Item = ArenaSlot<P, LinkNoGen<P, T>>>,
    R: Recaster<Item = I>,
>(arena: &mut ChainArena<P, T, S>, p: P, recaster: &R) -> Result<(), I>
    ensures { IsValid (entry arena.old) (P.key p)
        → IsRecastAt (T.recast_by (R.recasts recaster.now)) arena.old arena.new (P.key p) result }
{
    match arena.get_mut(p) {
        Some(t) => t.recast(recaster),
        None => Ok(()),
    }
}

impl<P: PtrKey, I, T: Recast<I> + Drop, S: SlotStack<Item = ArenaSlot<P, LinkNoGen<P, T>>>> Recast<
    I,
> for ChainArena<P, T, S> {
    ghost use Rattle.chain_arena.specs.Recasts.{IsRecast};

    ghost recast_by = { λ recasts old new returned. IsRecast
        (T.recast_by recasts) old new returned };

    /// Recasts the values in ascending index order, up to the first that fails.
    fn recast<R: Recaster<Item = I>>(&mut self, recaster: &R) -> Result<(), I> {
        let mut all = self.advancer();
        while let Some(p) = all.advance(&*self) {
            match recast_at(self, p, recaster) {
                Ok(()) => {}
                Err(refusal) => return Err(refusal),
            }
        }
        Ok(())
    }
}
