//! Polygons with holes.

ghost use Rattle.std.specs.Prelude.{◌≤◌, length, All, IfOk};
ghost use Rattle.triangulation.specs.Polygons.{rings_of, HasCorner, IsJoinedRing, TriangulatesPolygon};

use crate::errors::{PolygonError, TriangulationError};
use crate::holes::clockwise_holes;
use crate::joining::{Turn, joined, turned_to};
use crate::points::{Point, Triangle};
use crate::ring_checks::{check_holes, check_outline, check_places};
use crate::triangulation::triangulate_points;
use arena_ptr::PtrKey;
use chain_traits::ChainArenaTrait;
use std::alloc::{AllocError, Global};

/// Triangulates a polygon with holes by ear clipping.
///
/// Rings may turn either way. With `n` corners in all and `h` holes, `n + 2 * h - 2`
/// counterclockwise triangles have the area of the outline without the holes.
///
/// # Errors
///
/// - `TooFewCorners`: a ring has fewer than three corners.
/// - `NoArea`: a ring has the area 0.
/// - `Meets`: a hole has a common point with another ring.
/// - `Outside`: a hole is outside the outline.
/// - `InHole`: a hole is in another.
/// - `NoEar`: no remaining corner is an ear, as if sides cross.
/// - `AllocError`: an allocation failed, or the greatest index is reached.
pub fn triangulate_polygon<P: PtrKey, A: ChainArenaTrait<P, Point> + Drop>(
    alloc: Global,
    outline: &[Point],
    holes: &[Vec<Point>],
) -> Result<Vec<Triangle>, PolygonError>
    ensures { TriangulatesPolygon outline.now (rings_of holes.now) result }
{
    check_outline(outline)?;
    check_holes(outline, holes)?;
    check_places(outline, holes)?;
    let ring = match joined_ring(alloc, outline, holes) {
        Ok(ring) => ring,
        Err(_) => return Err(PolygonError::AllocError),
    };
    match triangulate_points::<P, A>(alloc, &ring) {
        Ok(triangles) => Ok(triangles),
        Err(TriangulationError::NoEar) => Err(PolygonError::NoEar),
        Err(_) => Err(PolygonError::AllocError),
    }
}

fn joined_ring(
    alloc: Global,
    outline: &[Point],
    holes: &[Vec<Point>],
) -> Result<Vec<Point>, AllocError>
    requires outline { 3 ≤ length outline.now }
    requires holes { All HasCorner holes.now }
    ensures { IfOk result (λ ring. IsJoinedRing outline.now (rings_of holes.now) ring.items) }
{
    let around = turned_to(alloc, outline, Turn::Counterclockwise)?;
    let inside = clockwise_holes(alloc, holes)?;
    joined(alloc, around, &inside)
}
