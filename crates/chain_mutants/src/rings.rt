// Forwarding wrappers of calls of `Polygons`.
ghost use Rattle.polygons.specs.Rings.{ExchangesSuccessors, SplitsRing};

use arena_ptr::{PtrKey, ReallocationError};
use chain_traits::ChainArenaTrait;
use polygons::Polygons;

/// Forwards to `Polygons::exchange`, under its clause on the outcome.
pub fn exchange<P: PtrKey, T: Drop, A: ChainArenaTrait<P, T> + Drop>(
    polygons: &mut Polygons<P, T, A>,
    u: P,
    v: P,
) -> Option<()>
    ensures { ExchangesSuccessors A.state A.interlinks polygons.old (P.key u) (P.key v) result
        polygons.new }
{
    polygons.exchange(u, v)
}

/// Forwards to `Polygons::split`, under its clause on the outcome.
pub fn split<P: PtrKey, T: Copy + Drop, A: ChainArenaTrait<P, T> + Drop>(
    polygons: &mut Polygons<P, T, A>,
    u: P,
    v: P,
) -> Result<Option<(P, P)>, ReallocationError>
    ensures { SplitsRing A.state A.interlinks P.key P.Inx.greatest polygons.old (P.key u)
        (P.key v) result polygons.new }
{
    polygons.split(u, v)
}
