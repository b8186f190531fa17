ghost use Rattle.std.specs.Prelude.{◌≡◌, Some};

use crate::chain_arena::ChainArena;
use arena_base::{Advancer, ArenaSlot};
use arena_ptr::{PtrKey, SlotStack};
use chain_linking::walk_step::step;
use chain_links::LinkNoGen;

/// An advancer along one chain, in walk order.
///
/// Each pointer is valid in the arena of its call. There are at most as many as links when it was
/// made, then only `None`.
///
/// Port of `ChainPtrAdvancer`.
#[derive(Drop)]
pub struct ChainPtrAdvancer<P: PtrKey> {
    left: usize,
    start: P::Inx,
    forward: Option<P::Inx>,
    back: Option<P::Inx>,
}

impl<P: PtrKey> ChainPtrAdvancer<P> {
    pub(crate) fn new(left: usize, start: P::Inx, back: Option<P::Inx>) -> Self
        ensures left { result.left ≡ left }
        ensures start { result.start ≡ start }
        ensures forward { result.forward ≡ Some start }
        ensures back { result.back ≡ back }
    {
        ChainPtrAdvancer {
            left,
            start,
            forward: Some(start),
            back,
        }
    }
}

impl<P: PtrKey, T: Drop, S: SlotStack<Item = ArenaSlot<P, LinkNoGen<P, T>>>> Advancer<
    ChainArena<P, T, S>,
> for ChainPtrAdvancer<P> {
    ghost use Rattle.std.specs.Prelude.{◌≡◌};
    ghost use Rattle.std.specs.Option.{option_map};
    ghost use Rattle.chain_links.specs.ChainArena.{entry, link_map};
    ghost use Rattle.chain_links.specs.Walkers.{walker_of, IsPassing};
    ghost use Rattle.chain_linking.specs.ChainArenaLaws.{spent_stays};

    type Item = P;

    ghost gives = { λ a arena returned b. IsPassing (entry arena) (link_map arena)
        (walker_of P.Inx.number a.left a.start a.forward a.back) (option_map P.key returned)
        (walker_of P.Inx.number b.left b.start b.forward b.back) };

    ghost is_spent = { λ a. a.left ≡ 0 };

    ghost stays_spent = { λ a b arena returned spent given. spent_stays P.key (entry arena)
        (link_map arena) returned spent given };

    fn advance(&mut self, collection: &ChainArena<P, T, S>) -> Option<P> {
        if self.left == 0 {
            return None;
        }
        match step(&collection.arena, self.start, self.forward, self.back) {
            Some(passed) => {
                self.left -= 1;
                self.forward = passed.1;
                self.back = passed.2;
                Some(passed.0)
            }
            None => {
                self.left = 0;
                None
            }
        }
    }

    fn empty() -> Self {
        ChainPtrAdvancer {
            left: 0,
            start: P::invalid().inx(),
            forward: None,
            back: None,
        }
    }
}
