ghost use Rattle.std.specs.Prelude.{◌≡◌};

use crate::arena::Arena;
use crate::slot::{ArenaSlot, number_of};
use arena_core::{PtrKey, SlotStack};
use arena_traits::{Advancer, Cursor};
use std::marker::PhantomData;

/// An advancer over valid pointers, ascending or descending.
///
/// Port of `PtrAdvancer`.
#[derive(Drop)]
pub struct PtrAdvancer<P> {
    cursor: Cursor,
    of: PhantomData<P>,
}

impl<P> PtrAdvancer<P> {
    pub(crate) fn at(cursor: Cursor) -> Self
        ensures { result.cursor ≡ cursor }
    {
        PtrAdvancer {
            cursor,
            of: PhantomData,
        }
    }
}

impl<P: PtrKey, T: Drop, S: SlotStack<Item = ArenaSlot<P, T>>> Advancer<Arena<P, T, S>>
    for PtrAdvancer<P> {
    ghost use Rattle.std.specs.Prelude.{◌≡◌};
    ghost use Rattle.std.specs.Option.{option_map};
    ghost use Rattle.arena_traits.specs.Entries.{entries};
    ghost use Rattle.arena_traits.specs.Advancers.{IsAdvance};
    ghost use Rattle.arena_traits.specs.AdvancerLaws.{nowhere_stays};
    ghost use Rattle.arena_traits.specs.declared.cursor.Cursor.TheVariants.{Nowhere};

    type Item = P;

    ghost gives = { λ a arena returned b. IsAdvance (entries arena) a.cursor
        (option_map P.key returned)
        b.cursor };

    ghost is_spent = { λ a. a.cursor ≡ Nowhere };

    ghost stays_spent = { λ a b arena returned spent given. nowhere_stays P.key
        (entries arena) a.cursor returned b.cursor spent given };

    fn advance(&mut self, collection: &Arena<P, T, S>) -> Option<P> {
        match collection.find(self.cursor) {
            Some(p) => {
                self.cursor = self.cursor.after(number_of::<P>(p.inx()));
                Some(p)
            }
            None => {
                self.cursor = Cursor::Nowhere;
                None
            }
        }
    }

    fn empty() -> Self {
        PtrAdvancer::at(Cursor::Nowhere)
    }
}
