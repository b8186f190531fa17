//! `reserve` for arenas of links.

ghost use Rattle.std.specs.Prelude.{◌+◌, OnOk};
ghost use Rattle.arena_traits.specs.Entries.{count};
ghost use Rattle.chain_lists.specs.Sizes.{ReservesMore};

use arena_ptr::{InxKey, PtrKey, ReallocationError};
use chain_traits::ChainArenaTrait;

/// Reserves capacity for at least `additional` more entries.
///
/// # Errors
///
/// - `BeyondMaxCapacity`: growth would exceed the maximum.
/// - `AllocError`: growth would exceed the greatest index, or an allocation failed.
///
/// On error, nothing changes.
pub fn reserve<P: PtrKey, T: Drop, A: ChainArenaTrait<P, T>>(
    arena: &mut A,
    additional: usize,
) -> Result<(), ReallocationError>
    ensures reserves { ReservesMore A.state A.interlinks P.Inx.greatest additional arena.old result
        arena.new }
    ensures implementation { OnOk result (A.grows (count (A.view arena.old) + additional) arena.old
        arena.new) }
{
    match arena.len().checked_add(additional) {
        Some(n) => arena.reallocate_min_capacity(n),
        None => {
            // No `usize` suffices.
            arena.capacity();
            match arena.max_capacity() {
                Some(_) => Err(ReallocationError::BeyondMaxCapacity),
                None => Err(ReallocationError::AllocError),
            }
        }
    }
}
