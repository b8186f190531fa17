ghost use Rattle.std.specs.Prelude.{◌≡◌, ◌↔◌, ℕ, Option, None, Some, IsTrue};
ghost use Rattle.std.specs.Option.{option_map};
ghost use Rattle.chain_links.specs.Links.{link_view, index_in, IsAtRest};

use arena_ptr::{InxKey, PackedOption, PtrKey, ToolPtr};
use std::alloc::AllocError;

/// A value with its neighbors' optional indexes, each stored as a `K`.
#[derive(Copy)]
pub struct RawLink<K: Vacant, T> {
    pub(crate) prev: K,
    pub(crate) next: K,

    // `None` except during a canonical compression.
    pub(crate) destination: K,
    pub t: T,
}

/// A type that stores an optional index.
pub trait Vacant: Copy {
    ghost number: { Self → Option ℕ };

    /// Stores no index.
    fn vacant() -> Self
        ensures { number result ≡ None };
}

impl<W: Copy, I: InxKey<Word = W>> Vacant for PackedOption<I, W> {
    ghost number = { I.packed_number };

    fn vacant() -> Self {
        I::pack(None)
    }
}

// A clone has no destination.
impl<K: Vacant, T: Clone> Clone for RawLink<K, T> {
    ghost use Rattle.std.specs.Prelude.{◌≡◌};
    ghost use Rattle.chain_links.specs.Links.{IsAtRest};

    ghost is_clone = { λ l m. (m.prev ≡ l.prev) × (m.next ≡ l.next) × T.is_clone l.t m.t
        × IsAtRest K.number m };

    ghost is_infallible = { λ l. T.is_infallible l.t };

    fn clone(&self) -> Result<Self, AllocError> {
        Ok(RawLink {
            prev: self.prev,
            next: self.next,
            destination: K::vacant(),
            t: self.t.clone()?,
        })
    }
}

/// An optional index, no wider than an index.
pub type Interlink<P> = PackedOption<<P as PtrKey>::Inx, <<P as PtrKey>::Inx as InxKey>::Word>;

/// A link whose interlinks have no generation.
///
/// Port of `LinkNoGen`.
pub type LinkNoGen<P, T> = RawLink<Interlink<P>, T>;

const _: () = prove!(size_of::<LinkNoGen<ToolPtr, u32>>() == 16);

impl<W: Copy, I: InxKey<Word = W>, T> RawLink<PackedOption<I, W>, T> {
    /// Returns the previous index, or `None` at the start.
    pub fn prev(&self) -> Option<I>
        ensures { option_map I.number result ≡ (link_view I.packed_number self.now).prev }
    {
        I::unpack(self.prev)
    }

    /// Returns the next index, or `None` at the end.
    pub fn next(&self) -> Option<I>
        ensures { option_map I.number result ≡ (link_view I.packed_number self.now).next }
    {
        I::unpack(self.next)
    }

    /// Returns both interlinks.
    pub fn prev_next(&self) -> (Option<I>, Option<I>)
        ensures prev { option_map I.number result.0 ≡ (link_view I.packed_number self.now).prev }
        ensures next { option_map I.number result.1 ≡ (link_view I.packed_number self.now).next }
    {
        (self.prev(), self.next())
    }

    /// Creates a link.
    pub fn new(prev_next: (Option<I>, Option<I>), t: T) -> Self
        ensures link { link_view I.packed_number result
            ≡ record {
              prev = option_map I.number prev_next.0;
              next = option_map I.number
                  prev_next.1;
              value = t;
            } }
        ensures at_rest { IsAtRest I.packed_number result }
    {
        RawLink {
            prev: I::pack(prev_next.0),
            next: I::pack(prev_next.1),
            destination: I::pack(None),
            t,
        }
    }
}

/// A link whose interlinks are pointers, with their generations when it was read.
///
/// Port of `Link`.
#[derive(Copy, PartialEq, Eq, PartialOrd, Ord, Hash)]
pub struct Link<P, T> {
    prev: Option<P>,
    next: Option<P>,

    pub t: T,
}

impl<P: Copy, T: Clone> Clone for Link<P, T> {
    ghost use Rattle.std.specs.Prelude.{◌≡◌};

    ghost is_clone = { λ l m. (m.prev ≡ l.prev) × (m.next ≡ l.next) × T.is_clone l.t m.t };

    ghost is_infallible = { λ l. T.is_infallible l.t };

    fn clone(&self) -> Result<Self, AllocError> {
        Ok(Link {
            prev: self.prev,
            next: self.next,
            t: self.t.clone()?,
        })
    }
}

impl<P: Copy, T> Link<P, T> {
    /// Returns the previous pointer, or `None` at the start.
    pub fn prev(&self) -> Option<P>
        ensures { result ≡ self.now.prev }
    {
        self.prev
    }

    /// Returns the next pointer, or `None` at the end.
    pub fn next(&self) -> Option<P>
        ensures { result ≡ self.now.next }
    {
        self.next
    }

    /// Returns both interlinks.
    pub fn prev_next(&self) -> (Option<P>, Option<P>)
        ensures { result ≡ (self.now.prev, self.now.next) }
    {
        (self.prev, self.next)
    }

    /// Creates a link.
    pub fn new(prev_next: (Option<P>, Option<P>), t: T) -> Self
        ensures prev { result.prev ≡ prev_next.0 }
        ensures next { result.next ≡ prev_next.1 }
        ensures value { result.t ≡ t }
    {
        Link {
            prev: prev_next.0,
            next: prev_next.1,
            t,
        }
    }
}

impl<P: PtrKey, T> Link<P, T> {
    /// Drops the neighbors' generations.
    pub fn no_gen(self) -> LinkNoGen<P, T>
        ensures link { link_view P.Inx.packed_number result
            ≡ record {
              prev = option_map (index_in P.key) self.prev;
              next = option_map
                  (index_in P.key) self.next;
              value = self.t;
            } }
        ensures at_rest { IsAtRest P.Inx.packed_number result }
    {
        RawLink::new((index_of(self.prev), index_of(self.next)), self.t)
    }

    /// Drops the neighbors' generations, and borrows the value.
    pub fn no_gen_ref(&self) -> LinkNoGen<P, &T>
        ensures prev { (link_view P.Inx.packed_number result).prev ≡ option_map
            (index_in P.key) self.now.prev }
        ensures next { (link_view P.Inx.packed_number result).next ≡ option_map
            (index_in P.key) self.now.next }
        ensures value { result.t.now ≡ self.now.t }
        ensures at_rest { IsAtRest P.Inx.packed_number result }
    {
        RawLink::new((index_of(self.prev), index_of(self.next)), &self.t)
    }
}

/// Returns the index of a pointer, if any.
pub fn index_of<P: PtrKey>(p: Option<P>) -> Option<P::Inx>
    ensures { option_map P.Inx.number result ≡ option_map (index_in P.key) p }
{
    match p {
        Some(p) => Some(p.inx()),
        None => None,
    }
}

/// Returns whether `i` is `j`.
pub fn is_index<I: InxKey>(i: Option<I>, j: I) -> bool
    ensures { IsTrue result ↔ (option_map I.number i ≡ Some (I.number j)) }
{
    match i {
        Some(i) => i.is_same(j),
        None => false,
    }
}
