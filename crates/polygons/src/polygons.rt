//! Polygons in one arena.

ghost use Rattle.std.specs.Prelude.{◌≡◌, ◌↔◌, ◌+◌, ◌<◌, ◌≤◌, [], IsTrue, IsSome, IfSome, IfOk, OnSome, Err, None, Some};
ghost use Rattle.std.specs.Borrow.{LendsSo, sem};
ghost use Rattle.chain_laws.specs.Chains.{cyclic};
ghost use Rattle.arena_traits.specs.Arena.{IsValid};
ghost use Rattle.arena_traits.specs.Entries.{IsNew, count, HasFreeCapacity};
ghost use Rattle.chain_lists.specs.Rows.{chain_members};
ghost use Rattle.chain_lists.specs.Sizes.{ReservesMore, CountsEntries, ReportsCapacity};
ghost use Rattle.chain_lists.specs.Lists.{StartsList, InsertsItemAfter, InsertsItemBefore, RemovesItem, ReadsItem, HasNewValue};
ghost use Rattle.polygons.specs.Rings.{AllCyclic, AllInRings, AreTwoValid, AreInOneRing, IsSplitAlong, AddsAfter, AddsBefore, ListsRing, ReadsNextInRing, ReadsPrevInRing, ReplacesPoint, RemovesRing, ReversesRing, ExchangesSuccessors, SplitsRing, PassesCorner, SecondExchangeRestores};

use arena_ptr::{AnyPointer, ChainInsertionError, GenKey, InxKey, PtrKey, ReallocationError};
use arena_traits::Advancer;
use chain_links::LinkInsertKind;
use chain_lists::reserve;
use chain_traits::ChainArenaTrait;
use chain_traits::walks::{advancer_passes_the_walk, walk};
use std::alloc::{AllocError, Global};
use std::marker::{Model, PhantomData};

/// Polygons, each a ring of corners with points, in one arena.
///
/// The pointer of a removed corner is not valid until the generation counter wraps. Calls return
/// `None` if a corner is not valid. On `None` or an error, nothing changes. Contracts call a
/// polygon a ring (`IsRing`).
#[derive(Drop)]
pub struct Polygons<P: PtrKey, T: Drop, A: ChainArenaTrait<P, T> + Drop> {
    corners: A,
    of: PhantomData<(P, T)>,
}

impl<P: PtrKey, T: Drop, A: ChainArenaTrait<P, T> + Drop> Model for Polygons<P, T, A> {
    ghost use Rattle.polygons.specs.Rings.{AllCyclic};

    ghost Value = { A };

    ghost view = { λ m. m.corners };

    ghost invariant = { λ m. AllCyclic (A.interlinks m.corners) };
}

impl<P: PtrKey, T: Drop, A: ChainArenaTrait<P, T> + Drop> Polygons<P, T, A> {
    ghost use Rattle.polygons.specs.contracts.polygons.Polygons.{the_row};

    /// Creates an empty collection, without allocating.
    pub fn new(alloc: Global) -> Self
        ensures new { IsNew P.Gen.first (A.view result) }
        ensures capacity { (A.view result).capacity ≡ 0 }
    {
        Polygons {
            corners: A::new(alloc),
            of: PhantomData,
        }
    }

    /// Returns the number of all corners.
    pub fn len(&self) -> usize
        ensures { CountsEntries (A.view self.now) result }
    {
        self.corners.len()
    }

    /// Returns whether there are no corners.
    pub fn is_empty(&self) -> bool
        ensures { IsTrue result ↔ ((A.view self.now).entries ≡ []) }
    {
        self.corners.is_empty()
    }

    /// Returns the capacity, in corners.
    pub fn capacity(&self) -> usize
        ensures { ReportsCapacity (A.view self.now) P.Inx.greatest result }
    {
        self.corners.capacity()
    }

    /// Returns the maximum capacity, or `None` without limit.
    pub fn max_capacity(&self) -> Option<usize>
        ensures { result ≡ (A.view self.now).maximum }
    {
        self.corners.max_capacity()
    }

    /// Reserves capacity for at least `additional` more corners.
    ///
    /// # Errors
    ///
    /// - `BeyondMaxCapacity`: the maximum is exceeded.
    /// - `AllocError`: an allocation failed, or the greatest index is exceeded.
    pub fn reserve(&mut self, additional: usize) -> Result<(), ReallocationError>
        ensures { ReservesMore A.state A.interlinks P.Inx.greatest additional self.old result
            self.new }
    {
        reserve(&mut self.corners, additional)
    }

    /// States that each corner is in exactly one polygon, which can be listed from it on.
    pub fn all_in_polygons(&self)
        ensures { AllInRings A.state A.interlinks self.now }
    {
        self.corners.invariants();
    }

    /// Returns the point of a corner.
    pub fn get(&self, corner: P) -> Option<&T>
        ensures { ReadsItem (A.entry self.now) (P.key corner) result }
    {
        self.corners.get(corner)
    }

    /// Returns a mutable reference to the point of a corner.
    pub fn get_mut(&mut self, corner: P) -> Option<&mut T>
        ensures* writes_back { sem 𝓛 (LendsSo
            (the_row P.row T.row A.row P.Inx.row P.Gen.row P.Inx.Word.row
            A.ChainPtrAdvancer.row A.PtrAdvancer.row P.PtrKey P.Inx.InxKey P.Gen.GenKey
            (chain_members A.interlinks A.walker A.inserts A.connects A.breaks_prev
            A.breaks_next A.exchanges A.reverses A.moves A.splices A.compresses_canonically)
            A.ArenaTrait A.PtrAdvancer.Advancer A.ChainPtrAdvancer.Advancer)
            T.row self.entry result
            (λ new t. OnSome result
            (HasNewValue A.state A.interlinks cyclic self.old new (P.key corner) t))
            (λ new. new ≡ self.old)) }
        ensures some { IsSome result ↔ IsValid (A.entry self.old) (P.key corner) }
        ensures point { IfSome result (λ t. A.entry self.old (P.key corner).0
            ≡ Some ((P.key corner).1, t.now)) }
    {
        match self.corners.get_mut(corner) {
            Some(point) => Some(point),
            None => None,
        }
    }

    /// Moves a corner and returns its former point.
    pub fn replace(&mut self, corner: P, point: T) -> Option<T>
        ensures { ReplacesPoint A.state A.interlinks self.old (P.key corner) point result self.new }
    {
        self.corners.replace(corner, point)
    }

    /// Returns the next corner, itself if it is the only one.
    pub fn next(&self, corner: P) -> Option<P>
        ensures { ReadsNextInRing A.state A.interlinks P.key self.now corner result }
    {
        match self.corners.get_link(corner) {
            Some(link) => link.next(),
            None => None,
        }
    }

    /// Returns the previous corner, itself if it is the only one.
    pub fn prev(&self, corner: P) -> Option<P>
        ensures { ReadsPrevInRing A.state A.interlinks P.key self.now corner result }
    {
        match self.corners.get_link(corner) {
            Some(link) => link.prev(),
            None => None,
        }
    }

    /// Returns the corners of a polygon in `next` order, from `corner` on.
    ///
    /// # Errors
    ///
    /// - `AllocError`: an allocation failed.
    pub fn walk(&self, alloc: Global, corner: P) -> Result<Option<Vec<P>>, AllocError>
        ensures some { IfOk result (λ r. IsSome r ↔ IsValid (A.entry self.now) (P.key corner)) }
        ensures ring { IfOk result (λ r. IfSome r (λ pointers. ListsRing A.state A.interlinks P.key
            self.now corner pointers.items)) }
    {
        self.corners.invariants();
        walk(&self.corners, alloc, corner)
    }

    /// Returns whether both corners are valid and in one polygon. Walks at most that of `u`.
    pub fn same_polygon(&self, u: P, v: P) -> bool
        ensures { IsTrue result ↔ AreInOneRing A.state A.interlinks self.now (P.key u) (P.key v) }
    {
        self.corners.invariants();
        passes(&self.corners, u, v)
    }

    /// Creates a polygon of one corner.
    ///
    /// # Errors
    ///
    /// - `BeyondMaxCapacity`: the maximum is reached.
    /// - `AllocError`: an allocation failed, or the greatest index is reached.
    pub fn start(&mut self, point: T) -> Result<P, ReallocationError>
        ensures { StartsList A.state A.interlinks cyclic P.key P.Inx.greatest
            self.old point result self.new }
    {
        self.corners.agrees();
        self.corners.insert(LinkInsertKind::SingleLinkCyclic, point)
    }

    /// Inserts a corner directly after `corner`.
    ///
    /// # Errors
    ///
    /// - `FailedLinkRequirement`: `corner` is not valid.
    /// - `BeyondMaxCapacity`: the maximum is reached.
    /// - `AllocError`: an allocation failed, or the greatest index is reached.
    pub fn insert_after(&mut self, corner: P, point: T) -> Result<P, ChainInsertionError>
        ensures { InsertsItemAfter A.state A.interlinks cyclic P.key P.Inx.greatest
            self.old (P.key corner) point result self.new }
    {
        self.corners.agrees();
        self.corners
            .insert_reallocating(LinkInsertKind::NextTo(corner), point)
    }

    /// Inserts a corner directly before `corner`.
    ///
    /// # Errors
    ///
    /// - `FailedLinkRequirement`: `corner` is not valid.
    /// - `BeyondMaxCapacity`: the maximum is reached.
    /// - `AllocError`: an allocation failed, or the greatest index is reached.
    pub fn insert_before(&mut self, corner: P, point: T) -> Result<P, ChainInsertionError>
        ensures { InsertsItemBefore A.state A.interlinks cyclic P.key P.Inx.greatest
            self.old (P.key corner) point result self.new }
    {
        self.corners.invariants();
        self.corners
            .insert_reallocating(LinkInsertKind::PrevTo(corner), point)
    }

    /// Removes a corner and returns its point.
    pub fn remove(&mut self, corner: P) -> Option<T>
        ensures { RemovesItem A.state A.interlinks cyclic ⟦<P as AnyPointer>⟧.pointers self.old
            corner result self.new }
    {
        self.corners.agrees();
        self.corners.remove(corner).allow()
    }

    /// Removes a polygon and returns how many corners it had.
    pub fn remove_polygon(&mut self, corner: P) -> Option<usize>
        ensures { RemovesRing A.state A.interlinks P.Gen.following self.old (P.key corner) result
            self.new }
    {
        self.all_in_polygons();
        let corners = self.len();
        if !self.corners.contains(corner) {
            return None;
        }
        let mut at = corner;
        // The last corner is its own next one, and not valid once removed.
        while let Some(next) = self.next(at) {
            self.remove(at);
            at = next;
        }
        Some(corners - self.len())
    }

    /// Reverses the order of a polygon's corners.
    pub fn reverse(&mut self, corner: P) -> Option<()>
        ensures { ReversesRing A.state A.interlinks self.old (P.key corner) result self.new }
    {
        self.corners.invariants();
        self.corners.reverse_chain(corner)
    }

    /// Exchanges the corners after `u` and `v`: cuts their polygon in two, or merges their two
    /// polygons.
    ///
    /// Nothing changes if both are the same. A second exchange restores the polygons
    /// (`exchange_twice_restores`).
    pub fn exchange(&mut self, u: P, v: P) -> Option<()>
        ensures { ExchangesSuccessors A.state A.interlinks self.old (P.key u) (P.key v) result
            self.new }
    {
        self.corners.agrees();
        self.corners.exchange_next(u, v)
    }

    fn split_within_capacity(&mut self, u: P, v: P, both: (T, T)) -> (P, P)
        requires capacity { count (A.view self.old) + 2 ≤ (A.view self.old).capacity }
        requires first { A.entry self.old (P.key u).0 ≡ Some ((P.key u).1, both.0) }
        requires second { A.entry self.old (P.key v).0 ≡ Some ((P.key v).1, both.1) }
        ensures rings { IsSplitAlong A.state A.interlinks self.old self.new
            (P.key u) (P.key v) (P.key result.0) (P.key result.1) }
        ensures capacity { (A.view self.new).capacity ≡ (A.view self.old).capacity }
    {
        let first = add_before(&mut self.corners, u, both.0);
        let second = add_after(&mut self.corners, v, both.1);
        self.exchange(v, first);
        (first, second)
    }
}

impl<P: PtrKey, T: Copy + Drop, A: ChainArenaTrait<P, T> + Drop> Polygons<P, T, A> {
    /// Splits a polygon along the diagonal from `u` to `v`, and returns their copies in the other
    /// part.
    ///
    /// Two polygons become one, by a bridge with the copies on its other side. Returns `Ok(None)`
    /// also if both are the same corner.
    ///
    /// # Errors
    ///
    /// - `BeyondMaxCapacity`: the maximum is exceeded.
    /// - `AllocError`: an allocation failed, or the greatest index is exceeded.
    pub fn split(&mut self, u: P, v: P) -> Result<Option<(P, P)>, ReallocationError>
        ensures { SplitsRing A.state A.interlinks P.key P.Inx.greatest self.old
            (P.key u) (P.key v) result self.new }
    {
        match self.points(u, v) {
            Some(both) => {
                self.reserve(2)?;
                Ok(Some(self.split_within_capacity(u, v, both)))
            }
            None => Ok(None),
        }
    }

    fn points(&self, u: P, v: P) -> Option<(T, T)>
        ensures some { IsSome result ↔ AreTwoValid (A.entry self.now) (P.key u) (P.key v) }
        ensures points { IfSome result (λ r.
            (A.entry self.now (P.key u).0 ≡ Some ((P.key u).1, r.0))
            × (A.entry self.now (P.key v).0 ≡ Some ((P.key v).1, r.1))) }
    {
        if u.is_same(v) {
            return None;
        }
        let a = self.corners.get(u)?;
        let b = self.corners.get(v)?;
        Some((*a, *b))
    }
}

fn passes<P: PtrKey, T: Drop, A: ChainArenaTrait<P, T>>(corners: &A, u: P, v: P) -> bool
    ensures { IsTrue result ↔ PassesCorner (A.entry corners.now) (A.interlinks corners.now)
        (P.key u) (P.key v) }
{
    advancer_passes_the_walk(corners, u);
    if !corners.contains(v) {
        return false;
    }
    let mut along = match corners.advancer_chain(u) {
        Some(along) => along,
        None => return false,
    };
    while let Some(q) = along.advance(corners) {
        if q.is_same(v) {
            return true;
        }
    }
    false
}

fn add_before<P: PtrKey, T: Drop, A: ChainArenaTrait<P, T>>(corners: &mut A, u: P, t: T) -> P
    requires valid { IsValid (A.entry corners.old) (P.key u) }
    requires capacity { HasFreeCapacity (A.view corners.old) }
    ensures { AddsBefore A.state A.interlinks corners.old (P.key u) (P.key result, t) corners.new }
{
    corners.invariants();
    match corners.insert(LinkInsertKind::PrevTo(u), t) {
        Ok(p) => p,
        Err(_) => unreachable!(),
    }
}

fn add_after<P: PtrKey, T: Drop, A: ChainArenaTrait<P, T>>(corners: &mut A, v: P, t: T) -> P
    requires valid { IsValid (A.entry corners.old) (P.key v) }
    requires capacity { HasFreeCapacity (A.view corners.old) }
    ensures { AddsAfter A.state A.interlinks corners.old (P.key v) (P.key result, t) corners.new }
{
    corners.agrees();
    match corners.insert(LinkInsertKind::NextTo(v), t) {
        Ok(p) => p,
        Err(_) => unreachable!(),
    }
}

/// States that the same `exchange` twice restores each polygon.
pub fn exchange_twice_restores<P: PtrKey, T: Drop, A: ChainArenaTrait<P, T>>()
    ensures { SecondExchangeRestores A.state A.interlinks }
{}
