//! The kinds of insertion.

use std::alloc::AllocError;

/// Where a link goes, by valid pointers (`P`) or occupied indexes (`I`).
#[derive(Copy, Debug, PartialEq, Eq)]
pub enum InsertKind<P, I> {
    Disconnected,
    SingleLinkCyclic,
    /// After an end.
    ChainEnd(P),
    ChainEndInx(I),
    /// Before a start.
    ChainStart(P),
    ChainStartInx(I),
    NextTo(P),
    NextToInx(I),
    PrevTo(P),
    PrevToInx(I),
    /// Between `next_to` and its next link, `prev_to`.
    AtInterlink { next_to: P, prev_to: P },
    AtInterlinkInx { next_to: I, prev_to: I },
    /// Between an end and a start, perhaps of one chain.
    Bridge { end: P, start: P },
    BridgeInx { end: I, start: I },
}

impl<P: Copy, I: Copy> Clone for InsertKind<P, I> {
    ghost use Rattle.std.specs.Prelude.{◌≡◌, ⊤};

    ghost is_clone = { λ k m. m ≡ k };

    ghost is_infallible = { λ _. ⊤ };

    fn clone(&self) -> Result<Self, AllocError> {
        Ok(*self)
    }
}
