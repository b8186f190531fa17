//! Common points of rings.

ghost use Rattle.std.specs.Prelude.{◌<◌, ◌≤◌, ◌↔◌, length, All, IsTrue, IsFalse};
ghost use Rattle.triangulation.specs.CornerIndexes.{IsInBox};
ghost use Rattle.triangulation.specs.Polygons.{AreAround, IsAcross, IsRangeBelow, RangesMeet, SegmentsMeet, CrossesRay, IsCrossing, IsOutside, IsInside, IsEdgeOf, MeetsEdge, RingsMeet};

use crate::bounds::BoundingBox;
use crate::points::{Point, is_left, orientation};

// `around` is the bounding box of `other`.
pub fn rings_meet(one: &[Point], other: &[Point], around: &BoundingBox) -> bool
    ensures meet { IsTrue result → RingsMeet one.now other.now }
    ensures found { All (IsInBox around.now) other.now → RingsMeet one.now other.now
        → IsTrue result }
{
    if one.is_empty() {
        return false;
    }
    let mut a = one[one.len() - 1];
    for b in one {
        if around.meets(&BoundingBox::empty().with_point(a).with_point(*b))
            && edge_meets(a, *b, other)
        {
            return true;
        }
        a = *b;
    }
    false
}

fn edge_meets(a: Point, b: Point, ring: &[Point]) -> bool
    ensures { IsTrue result ↔ MeetsEdge a b ring.now }
{
    if ring.is_empty() {
        return false;
    }
    let mut c = ring[ring.len() - 1];
    for d in ring {
        if segments_meet(a, b, c, *d) {
            return true;
        }
        c = *d;
    }
    false
}

fn segments_meet(a: Point, b: Point, c: Point, d: Point) -> bool
    ensures { IsTrue result ↔ SegmentsMeet a b c d }
{
    if !ranges_meet(a.x, b.x, c.x, d.x) {
        return false;
    }
    if !ranges_meet(a.y, b.y, c.y, d.y) {
        return false;
    }
    if !is_across(a, b, c, d) {
        return false;
    }
    is_across(c, d, a, b)
}

fn ranges_meet(a: i32, b: i32, c: i32, d: i32) -> bool
    ensures { IsTrue result ↔ RangesMeet a b c d }
{
    !is_range_below(a, b, c, d) && !is_range_below(c, d, a, b)
}

fn is_range_below(a: i32, b: i32, c: i32, d: i32) -> bool
    ensures { IsTrue result ↔ IsRangeBelow a b c d }
{
    a < c && a < d && b < c && b < d
}

fn is_across(a: Point, b: Point, c: Point, d: Point) -> bool
    ensures { IsTrue result ↔ IsAcross a b c d }
{
    are_around(orientation(a, b, c), orientation(a, b, d))
}

fn are_around(a: i128, b: i128) -> bool
    ensures { IsTrue result ↔ AreAround a b }
{
    if a > 0 {
        b <= 0
    } else if a < 0 {
        b >= 0
    } else {
        true
    }
}

pub fn is_inside(p: Point, ring: &[Point]) -> bool
    requires { 0 < length ring.now }
    ensures outside { IsFalse result ↔ IsOutside p ring.now }
    ensures inside { IsTrue result ↔ IsInside p ring.now }
{
    let mut crossings: usize = 0;
    let mut a = ring[ring.len() - 1];
    for b in ring {
        crossings += crossing(p, a, *b);
        a = *b;
    }
    crossings % 2 == 1
}

fn crossing(p: Point, a: Point, b: Point) -> usize
    ensures number { IsCrossing p a b result }
    ensures small { result ≤ 1 }
{
    if crosses_ray(p, a, b) { 1 } else { 0 }
}

fn crosses_ray(p: Point, a: Point, b: Point) -> bool
    ensures crosses { IsTrue result → CrossesRay p a b }
    ensures misses { IsFalse result → CrossesRay p a b → ⊥ }
{
    if a.y <= p.y {
        p.y < b.y && is_left(a, b, p)
    } else {
        b.y <= p.y && is_left(b, a, p)
    }
}
