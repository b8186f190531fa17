//! Polygons without holes.

ghost use Rattle.triangulation.specs.Triangulations.{TriangulatesPoints};
ghost use Rattle.triangulation.specs.Clippings.{Triangulates};

use crate::clipping::clip_ears;
use crate::corner_index::CornerIndex;
use crate::errors::TriangulationError;
use crate::outlines::{insert_ring, outline};
use crate::points::{Point, Triangle};
use arena_ptr::PtrKey;
use chain_traits::ChainArenaTrait;
use polygons::Polygons;
use std::alloc::Global;

/// Triangulates the polygon of the corner `start` by clipping ears of a copy.
///
/// The corners must turn counterclockwise. `n` corners have `n - 2` triangles, whose areas add up
/// to the polygon's. Each is a corner of some triangle, even if collinear. No remaining corner is
/// in a clipped triangle.
///
/// # Errors
///
/// - `InvalidPointer`: `start` is not valid.
/// - `TooFewCorners`: fewer than three corners.
/// - `NoEar`: no remaining corner is an ear, as if the corners turn clockwise or sides cross.
/// - `AllocError`: an allocation failed, or the greatest index is reached.
pub fn triangulate<P: PtrKey, A: ChainArenaTrait<P, Point> + Drop>(
    polygons: &Polygons<P, Point, A>,
    alloc: Global,
    start: P,
) -> Result<Vec<Triangle>, TriangulationError>
    ensures { Triangulates A.state A.interlinks polygons.now (P.key start) result }
{
    match outline(polygons, alloc, start) {
        Ok(corners) => triangulate_points::<P, A>(alloc, &corners),
        Err(e) => Err(e),
    }
}

/// Triangulates the polygon with these corners, as `triangulate` does.
///
/// # Errors
///
/// - `TooFewCorners`: fewer than three corners.
/// - `NoEar`: no remaining corner is an ear.
/// - `AllocError`: an allocation failed, or the greatest index is reached.
pub fn triangulate_points<P: PtrKey, A: ChainArenaTrait<P, Point> + Drop>(
    alloc: Global,
    corners: &[Point],
) -> Result<Vec<Triangle>, TriangulationError>
    ensures { TriangulatesPoints corners.now result }
{
    if corners.len() < 3 {
        return Err(TriangulationError::TooFewCorners);
    }
    let mut ring: Polygons<P, Point, A> = Polygons::new(alloc);
    let mut pointers = Vec::with_capacity(alloc, corners.len())?;
    match insert_ring(&mut ring, &mut pointers, corners[0], &corners[1..]) {
        Ok(start) => {
            let index = CornerIndex::new(alloc, corners, pointers)?;
            clip_ears(&mut ring, &index, corners, alloc, start)
        }
        Err(e) => Err(e),
    }
}
