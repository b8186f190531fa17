ghost use Rattle.std.specs.Prelude.{◌≡◌, ◌↔◌, ◌<◌, IsErr, IfOk};
ghost use Rattle.std.specs.Borrow.{RestsIfErr, sem};
ghost use Rattle.arena_traits.specs.Arena.{entry_count, next_index, insert_next};

use crate::arena::Arena;
use crate::slot::ArenaSlot;
use arena_core::{HeapStack, NotWithinCapacityError, PtrKey, SlotStack};

/// A vacant entry, whose pointer is known before its value.
///
/// Port of `ArenaInsertEntry`.
pub struct ArenaInsertEntry<
    'a,
    P: PtrKey,
    T: Drop,
    S: SlotStack<Item = ArenaSlot<P, T>> = HeapStack<ArenaSlot<P, T>>,
> {
    arena: &'a mut Arena<P, T, S>,
    ghost has_capacity: { entry_count arena.now < arena.now.capacity },
}

impl<P: PtrKey, T: Drop, S: SlotStack<Item = ArenaSlot<P, T>>> Arena<P, T, S> {
    ghost use Rattle.arena_base.specs.contracts.arena.Arena.{the_row as arena_row};

    /// Returns a vacant entry.
    ///
    /// # Errors
    ///
    /// - `NotWithinCapacityError`: the arena is full.
    pub fn entry_insert_within_capacity(
        &mut self,
    ) -> Result<ArenaInsertEntry<'_, P, T, S>, NotWithinCapacityError>
        ensures* unchanged_at_err { sem 𝓛 (RestsIfErr
            (arena_row P.row T.row S.row P.Inx.row P.Gen.row P.Inx.Word.row
            P.PtrKey P.Inx.InxKey P.Gen.GenKey S.SlotStack)
            self.entry (λ e. e.arena.ghost_name) result (λ n. n ≡ self.old)) }
        ensures refused { IsErr result ↔ (entry_count self.old ≡ self.old.capacity) }
        ensures same_reference { IfOk result (λ e. e.arena.ghost_name ≡ self.entry.ghost_name) }
        ensures arena { IfOk result (λ e. e.arena.now ≡ self.old) }
    {
        if self.is_full() {
            return Err(NotWithinCapacityError);
        }
        Ok(ArenaInsertEntry { arena: self })
    }
}

impl<'a, P: PtrKey, T: Drop, S: SlotStack<Item = ArenaSlot<P, T>>> ArenaInsertEntry<'a, P, T, S> {
    /// Returns the entry's pointer.
    pub fn ptr(&self) -> P
        ensures { P.key result ≡ (next_index self.now.arena.now, self.now.arena.now.counter) }
    {
        self.arena.next_ptr()
    }

    /// Inserts the entry, without allocating.
    pub fn insert(self, t: T)
        ensures { self.exit.0.now ≡ insert_next self.entry.arena.now t }
    {
        self.arena.insert_next(t);
        let ArenaInsertEntry { arena: _ } = self;
    }
}

impl<'a, P: PtrKey, T: Drop, S: SlotStack<Item = ArenaSlot<P, T>>> Drop
    for ArenaInsertEntry<'a, P, T, S> {
    fn drop(self)
        ensures { self.exit.0.now ≡ self.entry.arena.now }
    {
        let ArenaInsertEntry { arena: _ } = self;
    }
}
