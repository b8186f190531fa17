//! Linked lists in one arena.

ghost use Rattle.std.specs.Prelude.{◌≡◌, ◌↔◌, ◌+◌, List, [], ◌∷◌, ◌++◌, IsTrue, IsSome, IfSome, IfNone, IfOk, OnOk, OnSome, None, Some};
ghost use Rattle.std.specs.Borrow.{LendsSo, sem};
ghost use Rattle.arena_traits.specs.Entries.{IsNew, count};
ghost use Rattle.chain_laws.specs.declared.insert_kind.InsertKind.TheVariants as kinds;
ghost use Rattle.chain_lists.specs.Rows.{chain_members};
ghost use Rattle.chain_lists.specs.Sizes.{ReservesMore, CountsEntries, ReportsCapacity};
ghost use Rattle.linked_lists.specs.LinkedLists.{AllInLists, EachInList, IsRangeWithout, MovesRangeToFront, MovesRangeToBack, MovesRangeAfter, IsHandle, HasItem, IsItem, ValueBecomes, ReadsValue, ReadsFirst, ReadsLast, ReadsNext, ReadsPrev, ReadsHandle, ListsItems, CreatesList, PushesFront, PushesBack, InsertsAfterItem, InsertsBeforeItem, RemovesListItem, ReplacesItem, MovesToFront, MovesToBack, MovesAfterItem, JoinsLists, SplitsList, RemovesList};
ghost use Rattle.linked_lists.specs.RingCalls.{KeepsItemOnly, ReadsLastLink, ReadsEndOfListOf, RemovesItems};

use crate::entry::{Entry, removed_value, value_of};
use crate::handle::ListHandle;
use crate::rings::{
    are_same, find_head, is_head, next_link, prev_link, put_after, put_before, range_is_without,
    start_ring, take,
};
use arena_ptr::{
    AnyPointer, ChainInsertionError, GenKey, InvalidationResult, InxKey, PtrKey, ReallocationError,
};
use chain_lists::reserve;
use chain_traits::ChainArenaTrait;
use chain_traits::walks::walk;
use std::alloc::{AllocError, Global};
use std::marker::{Model, PhantomData};
use std::mem;

/// Doubly linked lists in one arena, each with a handle and items.
///
/// A handle is valid while its list exists. A pointer identifies its item until it is removed,
/// whatever list it is in; it is no handle. Removed handles and pointers are not valid until the
/// generation counter wraps, which removals report as `GenerationOverflow`. Moves and removals keep
/// all other pointers and the order of the other items; removals keep the capacity.
///
/// Calls return `None`, `InvalidPtr` or `FailedLinkRequirement` if `p` or `q` is not an item, or
/// `h` or `k` is not a handle. They return `BeyondMaxCapacity` if growth would exceed the maximum,
/// and `AllocError` if it would exceed the greatest index or an allocation failed. A refused call
/// changes nothing and drops the value it was given.
///
/// Contracts see the arena. A list is the list of its items (`IsList`), each with its index and
/// generation.
#[derive(Drop)]
pub struct LinkedLists<P: PtrKey, T: Drop, A: ChainArenaTrait<P, Entry<T>> + Drop> {
    arena: A,
    of: PhantomData<(P, T)>,
}

impl<P: PtrKey, T: Drop, A: ChainArenaTrait<P, Entry<T>> + Drop> Model for LinkedLists<P, T, A> {
    ghost use Rattle.linked_lists.specs.LinkedLists.{EachInList};

    ghost Value = { A };

    ghost view = { λ m. m.arena };

    ghost invariant = { λ m. EachInList A.state A.interlinks m.arena };
}

impl<P: PtrKey, T: Drop, A: ChainArenaTrait<P, Entry<T>> + Drop> LinkedLists<P, T, A> {
    ghost use Rattle.linked_lists.specs.contracts.linked_lists.LinkedLists.{the_row};

    /// Creates an empty collection without allocating.
    pub fn new(alloc: Global) -> Self
        ensures new { IsNew P.Gen.first (A.view result) }
        ensures capacity { (A.view result).capacity ≡ 0 }
        ensures implementation { A.starts 0 result }
    {
        LinkedLists {
            arena: A::new(alloc),
            of: PhantomData,
        }
    }

    /// Replaces the arena, for calls that lists do not have, and returns the former one.
    ///
    /// Each link of the new arena must be in a ring with one head.
    pub fn replace_arena(&mut self, arena: A) -> A
        requires { EachInList A.state A.interlinks arena }
        ensures new { self.new ≡ arena }
        ensures former { result ≡ self.old }
        ensures lists { EachInList A.state A.interlinks result }
    {
        mem::replace(&mut self.arena, arena)
    }

    /// Returns the number of items plus the number of lists.
    pub fn len(&self) -> usize
        ensures { CountsEntries (A.view self.now) result }
    {
        self.arena.len()
    }

    /// Returns `true` if there are no lists.
    pub fn is_empty(&self) -> bool
        ensures { IsTrue result ↔ ((A.view self.now).entries ≡ []) }
    {
        self.arena.is_empty()
    }

    /// Returns the number of items and lists that fit without growing.
    pub fn capacity(&self) -> usize
        ensures { ReportsCapacity (A.view self.now) P.Inx.greatest result }
    {
        self.arena.capacity()
    }

    /// Returns the maximum capacity, or `None` if there is no limit.
    pub fn max_capacity(&self) -> Option<usize>
        ensures { result ≡ (A.view self.now).maximum }
    {
        self.arena.max_capacity()
    }

    /// Reserves capacity for at least `additional` more items and lists, if it does not suffice.
    ///
    /// # Errors
    ///
    /// - `BeyondMaxCapacity`
    /// - `AllocError`
    pub fn reserve(&mut self, additional: usize) -> Result<(), ReallocationError>
        ensures reserves { ReservesMore A.state A.interlinks P.Inx.greatest additional self.old
            result self.new }
        ensures implementation { OnOk result (A.grows (count (A.view self.old) + additional)
            self.old self.new) }
    {
        reserve(&mut self.arena, additional)
    }

    /// States that each handle has a list and each item is in exactly one list; has no effect.
    pub fn all_in_lists(&self)
        ensures { AllInLists A.state A.interlinks self.now }
    {
        self.arena.agrees();
    }

    /// Returns whether `h` is the handle of a list.
    pub fn is_list(&self, h: ListHandle<P>) -> bool
        ensures { IsTrue result ↔ IsHandle (A.entry self.now) (P.key h.head) }
    {
        is_head(&self.arena, h.head)
    }

    /// Returns whether `p` is the pointer of an item.
    pub fn is_item(&self, p: P) -> bool
        ensures { IsTrue result ↔ IsItem (A.entry self.now) (P.key p) }
    {
        self.get(p).is_some()
    }

    /// Returns the value of an item.
    pub fn get(&self, p: P) -> Option<&T>
        ensures { ReadsValue (A.entry self.now) (P.key p) result }
    {
        match self.arena.get(p) {
            Some(entry) => match entry {
                Entry::Item(value) => Some(value),
                Entry::Head => None,
            },
            None => None,
        }
    }

    fn item_only(&self, pointer: Option<P>) -> Option<P>
        ensures { KeepsItemOnly (A.entry self.now) P.key pointer result }
    {
        match pointer {
            Some(p) => { if self.is_item(p) { Some(p) } else { None } }
            None => None,
        }
    }

    // The last item of a list, or its head if it is empty.
    fn last_link(&self, h: ListHandle<P>) -> Option<P>
        ensures { ReadsLastLink A.state A.interlinks P.key self.now (P.key h.head) result }
    {
        if self.is_list(h) {
            prev_link(&self.arena, h.head)
        } else {
            None
        }
    }

    /// Returns the first item of a list, or `None` if it is empty.
    pub fn first(&self, h: ListHandle<P>) -> Option<P>
        ensures { ReadsFirst A.state A.interlinks P.key self.now h.head result }
    {
        if !self.is_list(h) {
            return None;
        }
        self.item_only(next_link(&self.arena, h.head))
    }

    /// Returns the last item of a list, or `None` if it is empty.
    pub fn last(&self, h: ListHandle<P>) -> Option<P>
        ensures { ReadsLast A.state A.interlinks P.key self.now h.head result }
    {
        if !self.is_list(h) {
            return None;
        }
        self.item_only(prev_link(&self.arena, h.head))
    }

    /// Returns the item after `p`, or `None` if `p` is the last one.
    pub fn next(&self, p: P) -> Option<P>
        ensures { ReadsNext A.state A.interlinks P.key self.now p result }
    {
        if !self.is_item(p) {
            return None;
        }
        self.item_only(next_link(&self.arena, p))
    }

    /// Returns the item before `p`, or `None` if `p` is the first one.
    pub fn prev(&self, p: P) -> Option<P>
        ensures { ReadsPrev A.state A.interlinks P.key self.now p result }
    {
        if !self.is_item(p) {
            return None;
        }
        self.item_only(prev_link(&self.arena, p))
    }

    /// Returns the handle of the list of `p`, in as many steps as there are items from `p` on.
    pub fn list_of(&self, p: P) -> Option<ListHandle<P>>
        ensures { ReadsHandle A.state A.interlinks P.key (λ h. P.key h.head) self.now p result }
    {
        if !self.is_item(p) {
            return None;
        }
        find_head(&self.arena, p)
    }

    /// Creates an empty list and returns its handle.
    ///
    /// # Errors
    ///
    /// - `BeyondMaxCapacity`
    /// - `AllocError`
    pub fn new_list(&mut self) -> Result<ListHandle<P>, ReallocationError>
        ensures outcome { CreatesList A.state A.interlinks (λ h. P.key h.head) P.Inx.greatest
            self.old result self.new }
        ensures implementation { IfOk result (λ h. A.inserts self.old kinds.SingleLinkCyclic
            Entry.Head self.new h.head) }
    {
        start_ring(&mut self.arena, Entry::Head)
    }

    /// Inserts an item at the start of a list and returns its pointer.
    ///
    /// # Errors
    ///
    /// - `FailedLinkRequirement`
    /// - `BeyondMaxCapacity`
    /// - `AllocError`
    pub fn push_front(&mut self, h: ListHandle<P>, value: T) -> Result<P, ChainInsertionError>
        ensures outcome { PushesFront A.state A.interlinks P.key P.Inx.greatest self.old h.head
            value result self.new }
        ensures implementation { IfOk result (A.inserts self.old (kinds.NextTo h.head)
            (Entry.Item value) self.new) }
    {
        let may = self.is_list(h);
        put_after(&mut self.arena, may, h.head, Entry::Item(value))
    }

    /// Inserts an item at the end of a list and returns its pointer.
    ///
    /// # Errors
    ///
    /// - `FailedLinkRequirement`
    /// - `BeyondMaxCapacity`
    /// - `AllocError`
    pub fn push_back(&mut self, h: ListHandle<P>, value: T) -> Result<P, ChainInsertionError>
        ensures outcome { PushesBack A.state A.interlinks P.key P.Inx.greatest self.old h.head
            value result self.new }
        ensures implementation { IfOk result (A.inserts self.old (kinds.PrevTo h.head)
            (Entry.Item value) self.new) }
    {
        let may = self.is_list(h);
        put_before(&mut self.arena, may, h.head, Entry::Item(value))
    }

    /// Inserts an item directly after `p` and returns its pointer.
    ///
    /// # Errors
    ///
    /// - `FailedLinkRequirement`
    /// - `BeyondMaxCapacity`
    /// - `AllocError`
    pub fn insert_after(&mut self, p: P, value: T) -> Result<P, ChainInsertionError>
        ensures outcome { InsertsAfterItem A.state A.interlinks P.key P.Inx.greatest self.old p
            value result self.new }
        ensures implementation { IfOk result (A.inserts self.old (kinds.NextTo p) (Entry.Item value)
            self.new) }
    {
        let may = self.is_item(p);
        put_after(&mut self.arena, may, p, Entry::Item(value))
    }

    /// Inserts an item directly before `p` and returns its pointer.
    ///
    /// # Errors
    ///
    /// - `FailedLinkRequirement`
    /// - `BeyondMaxCapacity`
    /// - `AllocError`
    pub fn insert_before(&mut self, p: P, value: T) -> Result<P, ChainInsertionError>
        ensures outcome { InsertsBeforeItem A.state A.interlinks P.key P.Inx.greatest self.old p
            value result self.new }
        ensures implementation { IfOk result (A.inserts self.old (kinds.PrevTo p) (Entry.Item value)
            self.new) }
    {
        let may = self.is_item(p);
        put_before(&mut self.arena, may, p, Entry::Item(value))
    }

    fn checked_item(&self, p: P) -> Option<()>
        ensures some { OnSome result (IsItem (A.entry self.now) (P.key p)) }
        ensures none { IfNone result (IsItem (A.entry self.now) (P.key p) → ⊥) }
    {
        if self.is_item(p) { Some(()) } else { None }
    }

    /// Returns a mutable reference to the value of an item.
    pub fn get_mut(&mut self, p: P) -> Option<&mut T>
        ensures* writes_back { sem 𝓛 (LendsSo
            (the_row P.row T.row A.row P.Inx.row P.Gen.row P.Inx.Word.row
            A.ChainPtrAdvancer.row A.PtrAdvancer.row P.PtrKey P.Inx.InxKey P.Gen.GenKey
            (chain_members A.interlinks A.walker A.inserts A.connects A.breaks_prev
            A.breaks_next A.exchanges A.reverses A.moves A.splices A.compresses_canonically)
            A.ArenaTrait A.PtrAdvancer.Advancer A.ChainPtrAdvancer.Advancer)
            T.row self.entry result
            (λ new t. OnSome result
            (ValueBecomes A.state A.interlinks self.old new (P.key p) t))
            (λ new. (IsItem (A.entry self.old) (P.key p) → ⊥) → new ≡ self.old)) }
        ensures some { IsSome result ↔ IsItem (A.entry self.old) (P.key p) }
        ensures value { IfSome result (λ t. HasItem (A.entry self.old) (P.key p) t.now) }
    {
        match self.checked_item(p) {
            Some(()) => match self.arena.get_mut(p) {
                Some(entry) => entry.value_mut(),
                None => None,
            },
            None => None,
        }
    }

    /// Replaces the value of an item and returns the former one.
    pub fn replace(&mut self, p: P, value: T) -> Option<T>
        ensures { ReplacesItem A.state A.interlinks self.old (P.key p) value result self.new }
    {
        if !self.is_item(p) {
            return None;
        }
        value_of(self.arena.replace(p, Entry::Item(value)))
    }

    /// Removes an item and returns its value.
    pub fn remove(&mut self, p: P) -> InvalidationResult<T>
        ensures { RemovesListItem A.state A.interlinks ⟦<P as AnyPointer>⟧.pointers self.old p
            result self.new }
    {
        if !self.is_item(p) {
            return InvalidationResult::InvalidPtr;
        }
        removed_value(take(&mut self.arena, p))
    }

    /// Moves an item to the start of any list.
    pub fn move_to_front(&mut self, p: P, h: ListHandle<P>) -> Option<()>
        ensures { MovesToFront A.state A.interlinks self.old (P.key p) (P.key h.head) result
            self.new }
    {
        if !self.is_item(p) {
            return None;
        }
        if !self.is_list(h) {
            return None;
        }
        self.arena.move_after(p, h.head)
    }

    /// Moves an item to the end of any list.
    pub fn move_to_back(&mut self, p: P, h: ListHandle<P>) -> Option<()>
        ensures { MovesToBack A.state A.interlinks self.old (P.key p) (P.key h.head) result
            self.new }
    {
        if !self.is_item(p) {
            return None;
        }
        let Some(last) = self.last_link(h) else {
            return None;
        };
        if are_same(last, p) {
            return Some(());
        }
        self.arena.move_after(p, last)
    }

    /// Moves `p` directly behind `q`, in any list, or returns `None` if both are the same.
    pub fn move_after(&mut self, p: P, q: P) -> Option<()>
        ensures { MovesAfterItem A.state A.interlinks self.old (P.key p) (P.key q) result self.new }
    {
        if !self.is_item(p) {
            return None;
        }
        if !self.is_item(q) {
            return None;
        }
        if are_same(p, q) {
            return None;
        }
        self.arena.move_after(p, q)
    }

    /// Returns whether `first` to `last` are successive items of one list, and none of them is `q`.
    ///
    /// Moves of a range require this; a handle is in no range. Takes a step for each item from
    /// `first` to `last`, or to `q` or the end.
    pub fn is_range_without(&self, first: P, last: P, q: P) -> bool
        ensures { IsTrue result ↔ IsRangeWithout A.state A.interlinks self.now (P.key first)
            (P.key last) (P.key q) }
    {
        self.all_in_lists();
        if !self.is_item(first) {
            return false;
        }
        range_is_without(&self.arena, first, last, q)
    }

    /// Moves a range to the start of any list in O(1).
    pub fn move_range_to_front(&mut self, first: P, last: P, h: ListHandle<P>) -> Option<()>
        requires { IsRangeWithout A.state A.interlinks self.old (P.key first) (P.key last)
            (P.key h.head) }
        ensures { MovesRangeToFront A.state A.interlinks self.old (P.key first) (P.key last)
            (P.key h.head) result self.new }
    {
        if !self.is_list(h) {
            return None;
        }
        self.arena.splice_after(h.head, first, last)
    }

    /// Moves a range to the end of any list in O(1).
    pub fn move_range_to_back(&mut self, first: P, last: P, h: ListHandle<P>) -> Option<()>
        requires { IsRangeWithout A.state A.interlinks self.old (P.key first) (P.key last)
            (P.key h.head) }
        ensures { MovesRangeToBack A.state A.interlinks self.old (P.key first) (P.key last)
            (P.key h.head) result self.new }
    {
        let Some(end) = self.last_link(h) else {
            return None;
        };
        if are_same(end, last) {
            return Some(());
        }
        self.arena.splice_after(end, first, last)
    }

    /// Moves a range directly behind `q`, in any list, in O(1).
    pub fn move_range_after(&mut self, first: P, last: P, q: P) -> Option<()>
        requires { IsRangeWithout A.state A.interlinks self.old (P.key first) (P.key last)
            (P.key q) }
        ensures { MovesRangeAfter A.state A.interlinks self.old (P.key first) (P.key last)
            (P.key q) result self.new }
    {
        if !self.is_item(q) {
            return None;
        }
        self.arena.splice_after(q, first, last)
    }

    /// Moves all items of `k` behind those of `h` in O(1), or returns `None` if both are the same.
    pub fn join(&mut self, h: ListHandle<P>, k: ListHandle<P>) -> Option<()>
        ensures { JoinsLists A.state A.interlinks self.old (P.key h.head) (P.key k.head) result
            self.new }
    {
        let Some(end) = self.last_link(h) else {
            return None;
        };
        let Some(last) = self.last_link(k) else {
            return None;
        };
        if are_same(h.head, k.head) {
            return None;
        }
        match self.first(k) {
            Some(first) => self.arena.splice_after(end, first, last),
            None => Some(()),
        }
    }

    // The last item of the list of `p`.
    fn end_of_list_of(&self, p: P) -> Option<P>
        ensures { ReadsEndOfListOf A.state A.interlinks P.key self.now (P.key p) result }
    {
        if !self.is_item(p) {
            return None;
        }
        self.all_in_lists();
        match find_head(&self.arena, p) {
            Some(h) => self.last_link(h),
            None => None,
        }
    }

    /// Moves `p` and the items after it to a new list and returns its handle, in as many steps as
    /// it moves items.
    ///
    /// # Errors
    ///
    /// - `BeyondMaxCapacity`
    /// - `AllocError`
    pub fn split_at(&mut self, p: P) -> Result<Option<ListHandle<P>>, ReallocationError>
        ensures { SplitsList A.state A.interlinks P.key (λ h. P.key h.head) P.Inx.greatest self.old
            p result self.new }
    {
        self.all_in_lists();
        let Some(last) = self.end_of_list_of(p) else {
            return Ok(None);
        };
        let h = self.new_list()?;
        self.arena.splice_after(h.head, p, last);
        Ok(Some(h))
    }

    /// Returns the items of a list, in order.
    ///
    /// # Errors
    ///
    /// - `AllocError`
    pub fn walk(&self, alloc: Global, h: ListHandle<P>) -> Result<Option<Vec<P>>, AllocError>
        ensures some { IfOk result (λ r. IsSome r ↔ IsHandle (A.entry self.now) (P.key h.head)) }
        ensures items { IfOk result (λ r. IfSome r (λ pointers. ListsItems A.state A.interlinks
            P.key self.now h.head pointers.items)) }
    {
        self.all_in_lists();
        if !self.is_list(h) {
            return Ok(None);
        }
        match self.first(h) {
            Some(first) => match walk(&self.arena, alloc, first)? {
                Some(pointers) => Ok(Some(without_last(pointers))),
                None => unreachable!(),
            },
            None => Ok(Some(Vec::new(alloc))),
        }
    }

    fn remove_items(&mut self, h: ListHandle<P>) -> Option<(usize, bool)>
        ensures { RemovesItems A.state A.interlinks P.Gen.wraps P.Gen.following self.old
            (P.key h.head) result self.new }
    {
        if !self.is_list(h) {
            return None;
        }
        self.all_in_lists();
        let links = self.len();
        let mut wrapped = false;
        while let Some(p) = self.first(h) {
            let (_, overflow) = self.remove(p).overflowing();
            wrapped |= overflow;
        }
        Some((links - self.len(), wrapped))
    }

    /// Removes a list, drops its items and returns their number.
    pub fn remove_list(&mut self, h: ListHandle<P>) -> InvalidationResult<usize>
        ensures { RemovesList A.state A.interlinks P.Gen.wraps P.Gen.following self.old
            (P.key h.head) result self.new }
    {
        match self.remove_items(h) {
            Some((items, wrapped)) => {
                let (_, overflow) = take(&mut self.arena, h.head).overflowing();
                InvalidationResult::from_overflow(wrapped | overflow, items)
            }
            None => InvalidationResult::InvalidPtr,
        }
    }
}

fn without_last<P: PtrKey>(mut pointers: Vec<P>) -> Vec<P>
    ensures { (others : List P) (last : P) → pointers.items ≡ others ++ last ∷ []
        → result.items ≡ others }
{
    pointers.pop();
    pointers
}
