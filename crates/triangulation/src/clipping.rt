//! Ear clipping.

ghost use Rattle.std.specs.Prelude.{◌≡◌, map, length, IfSome, IfNone};
ghost use Rattle.triangulation.specs.Clippings.{IsEarAfter, SeesNoEar, FindsEar, FindsNoEar, ClipsEars};
ghost use Rattle.triangulation.specs.CornerIndexes.{IsIndexOf};

use crate::corner_index::{CornerIndex, holds_corner};
use crate::errors::TriangulationError;
use crate::points::{Point, Triangle, is_left};
use arena_ptr::PtrKey;
use chain_traits::ChainArenaTrait;
use polygons::Polygons;
use std::alloc::Global;

#[derive(Clone, Copy)]
struct Ear<P: PtrKey> {
    before: P,
    corner: P,
    after: P,
    triangle: Triangle,
}

fn ear_after<P: PtrKey, A: ChainArenaTrait<P, Point> + Drop>(
    ring: &Polygons<P, Point, A>,
    index: &CornerIndex<P>,
    corners: &[Point],
    before: P,
) -> Option<Ear<P>>
    requires { IsIndexOf (A.entry ring.now) (map P.key index.now.pointers.items) corners.now
        index.now.blocks.items index.now.groups.items }
    ensures before { IfSome result (λ ear. ear.before ≡ before) }
    ensures ear { IfSome result (λ ear. IsEarAfter A.state A.interlinks ring.now (P.key before)
        (P.key ear.corner) (P.key ear.after) ear.triangle) }
    ensures none { IfNone result (SeesNoEar A.state A.interlinks ring.now (P.key before)) }
{
    let corner = ring.next(before)?;
    let after = ring.next(corner)?;
    let a = *ring.get(before)?;
    let b = *ring.get(corner)?;
    let c = *ring.get(after)?;
    let triangle = Triangle { a, b, c };
    if is_left(a, b, c) && !holds_corner(ring, index, corners, triangle) {
        Some(Ear {
            before,
            corner,
            after,
            triangle,
        })
    } else {
        None
    }
}

// `left` is the number of corners of the ring.
fn find_ear<P: PtrKey, A: ChainArenaTrait<P, Point> + Drop>(
    ring: &Polygons<P, Point, A>,
    index: &CornerIndex<P>,
    corners: &[Point],
    start: P,
    left: usize,
) -> Option<Ear<P>>
    requires { IsIndexOf (A.entry ring.now) (map P.key index.now.pointers.items) corners.now
        index.now.blocks.items index.now.groups.items }
    ensures ear { IfSome result (λ ear. FindsEar A.state A.interlinks ring.now (P.key start)
        (P.key ear.before) (P.key ear.corner) (P.key ear.after) ear.triangle) }
    ensures none { IfNone result (FindsNoEar A.state A.interlinks ring.now (P.key start) left) }
{
    let mut before = start;
    for _ in 0..left {
        match ear_after(ring, index, corners, before) {
            Some(ear) => return Some(ear),
            None => {}
        }
        before = ring.next(before)?;
    }
    None
}

// The ring is alone in its arena. After an ear, the search goes on two corners further, so that
// triangles stay small.
pub fn clip_ears<P: PtrKey, A: ChainArenaTrait<P, Point> + Drop>(
    ring: &mut Polygons<P, Point, A>,
    index: &CornerIndex<P>,
    corners: &[Point],
    alloc: Global,
    start: P,
) -> Result<Vec<Triangle>, TriangulationError>
    requires { IsIndexOf (A.entry ring.old) (map P.key index.now.pointers.items) corners.now
        index.now.blocks.items index.now.groups.items }
    ensures { ClipsEars A.state A.interlinks ring.old (P.key start) (length corners.now) result }
{
    let mut triangles = Vec::with_capacity(alloc, corners.len())?;
    let mut start = start;
    let mut left = corners.len();
    while left > 2 {
        let ear = match find_ear(&*ring, index, corners, start, left) {
            Some(ear) => ear,
            None => return Err(TriangulationError::NoEar),
        };
        triangles.push(ear.triangle)?;
        ring.remove(ear.corner);
        start = ear.after;
        left -= 1;
    }
    Ok(triangles)
}
