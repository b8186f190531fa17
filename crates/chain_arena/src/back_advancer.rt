ghost use Rattle.std.specs.Prelude.{◌≡◌};
ghost use Rattle.chain_linking.specs.BackSteps.{back_walker_at};

use crate::chain_arena::ChainArena;
use arena_base::{Advancer, ArenaSlot};
use arena_ptr::{PtrKey, SlotStack};
use chain_linking::back_step::step_backwards;
use chain_links::LinkNoGen;
use std::marker::Model;

/// An advancer in the order of `ChainArena::iter_chain_back`, otherwise as `ChainPtrAdvancer`.
#[derive(Drop)]
pub struct ChainBackAdvancer<P: PtrKey> {
    left: usize,
    start: P::Inx,
    at: Option<P::Inx>,
}

impl<P: PtrKey> Model for ChainBackAdvancer<P> {
    ghost use Rattle.chain_linking.specs.BackSteps.{BackWalker, back_walker_of};

    ghost Value = { BackWalker };

    ghost view = { λ a. back_walker_of P.Inx.number a.left a.start a.at };
}

impl<P: PtrKey> ChainBackAdvancer<P> {
    pub(crate) fn new(left: usize, start: P::Inx) -> Self
        ensures { result ≡ back_walker_at left (P.Inx.number start) }
    {
        ChainBackAdvancer {
            left,
            start,
            at: Some(start),
        }
    }
}

impl<P: PtrKey, T: Drop, S: SlotStack<Item = ArenaSlot<P, LinkNoGen<P, T>>>> Advancer<
    ChainArena<P, T, S>,
> for ChainBackAdvancer<P> {
    ghost use Rattle.std.specs.Prelude.{◌≡◌};
    ghost use Rattle.std.specs.Option.{option_map};
    ghost use Rattle.chain_linking.specs.BackSteps.{IsPassingBack};
    ghost use Rattle.chain_linking.specs.ChainArenaLaws.{spent_back_stays};

    type Item = P;

    ghost gives = { λ a arena returned b. IsPassingBack arena a (option_map P.key returned) b };

    ghost is_spent = { λ a. a.left ≡ 0 };

    ghost stays_spent = { λ a b arena returned spent given. spent_back_stays P.key arena returned
        spent given };

    fn advance(&mut self, collection: &ChainArena<P, T, S>) -> Option<P> {
        if self.left == 0 {
            return None;
        }
        match step_backwards(&collection.arena, self.start, self.at) {
            Some(passed) => {
                self.left -= 1;
                self.at = passed.1;
                Some(passed.0)
            }
            None => {
                self.left = 0;
                None
            }
        }
    }

    fn empty() -> Self {
        ChainBackAdvancer {
            left: 0,
            start: P::invalid().inx(),
            at: None,
        }
    }
}
