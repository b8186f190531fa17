//! Rings in arenas and lists.

ghost use Rattle.std.specs.Prelude.{◌≡◌, [], ◌∷◌, map, IfOk, IfErr};
ghost use Rattle.triangulation.specs.Clippings.{IsRingOf, ReadsOutline};
ghost use Rattle.triangulation.specs.CornerIndexes.{AreListed};
ghost use Rattle.triangulation.specs.declared.errors.TriangulationError.TheVariants as why;

use crate::errors::TriangulationError;
use crate::points::Point;
use arena_ptr::PtrKey;
use chain_traits::ChainArenaTrait;
use polygons::Polygons;
use std::alloc::Global;

// Inserts a ring into an empty arena and returns its first pointer.
pub fn insert_ring<P: PtrKey, A: ChainArenaTrait<P, Point> + Drop>(
    ring: &mut Polygons<P, Point, A>,
    pointers: &mut Vec<P>,
    first: Point,
    others: &[Point],
) -> Result<P, TriangulationError>
    requires ring { (A.view ring.old).entries ≡ [] }
    requires pointers { pointers.old.items ≡ [] }
    ensures ring { IfOk result (λ start. IsRingOf A.state A.interlinks ring.new (P.key start)
        (first ∷ others.now)) }
    ensures listed { IfOk result (λ start. AreListed (A.entry ring.new)
        (map P.key pointers.new.items) (first ∷ others.now)) }
    ensures err { IfErr result (λ e. e ≡ why.AllocError) }
{
    let start = match ring.start(first) {
        Ok(start) => start,
        Err(_) => return Err(TriangulationError::AllocError),
    };
    pointers.push(start)?;
    let mut last = start;
    for corner in others {
        last = match ring.insert_after(last, *corner) {
            Ok(corner) => corner,
            Err(_) => return Err(TriangulationError::AllocError),
        };
        pointers.push(last)?;
    }
    Ok(start)
}

pub fn outline<P: PtrKey, A: ChainArenaTrait<P, Point> + Drop>(
    polygons: &Polygons<P, Point, A>,
    alloc: Global,
    start: P,
) -> Result<Vec<Point>, TriangulationError>
    ensures { ReadsOutline A.state A.interlinks polygons.now (P.key start) result }
{
    if polygons.get(start).is_none() {
        return Err(TriangulationError::InvalidPointer);
    }
    polygons.all_in_polygons();
    let mut points = Vec::new(alloc);
    let mut at = start;
    for _ in 0..polygons.len() {
        let point = match polygons.get(at) {
            Some(point) => *point,
            None => unreachable!(),
        };
        points.push(point)?;
        at = match polygons.next(at) {
            Some(next) => next,
            None => unreachable!(),
        };
        if at.is_same(start) {
            return Ok(points);
        }
    }
    unreachable!()
}
