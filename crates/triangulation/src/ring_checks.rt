//! Checks of polygons.

ghost use Rattle.std.specs.Prelude.{◌<◌, length, All, AllPairs, List, OnOk, IfErr};
ghost use Rattle.triangulation.specs.Polygons.{rings_of, HasCorner, HasArea, IsHoleIn, AreDisjoint, IsDisjointFromEarlier, IsReason, IsRingFault};
ghost use Rattle.triangulation.specs.declared.points.Point.{Point};

use crate::areas::double_area;
use crate::bounds::BoundingBox;
use crate::errors::{PolygonError, Ring};
use crate::meetings::{is_inside, rings_meet};
use crate::points::Point;

pub fn check_outline(outline: &[Point]) -> Result<(), PolygonError>
    ensures area { OnOk result (HasArea outline.now) }
    ensures reason { (holes : List (List Point)) → IfErr result (IsReason outline.now holes) }
{
    check_ring(outline, Ring::Outline)
}

pub fn check_holes(outline: &[Point], holes: &[Vec<Point>]) -> Result<(), PolygonError>
    ensures corners { OnOk result (All HasCorner holes.now) }
    ensures areas { OnOk result (All HasArea (rings_of holes.now)) }
    ensures reason { IfErr result (IsReason outline.now (rings_of holes.now)) }
{
    for i in 0..holes.len() {
        match check_ring(&holes[i], Ring::Hole(i)) {
            Ok(()) => {}
            Err(error) => return Err(error),
        }
    }
    Ok(())
}

pub fn check_places(outline: &[Point], holes: &[Vec<Point>]) -> Result<(), PolygonError>
    requires outline { 0 < length outline.now }
    requires holes { All HasCorner holes.now }
    ensures inside { OnOk result (All (IsHoleIn outline.now) (rings_of holes.now)) }
    ensures apart { OnOk result (AllPairs AreDisjoint (rings_of holes.now)) }
    ensures reason { IfErr result (IsReason outline.now (rings_of holes.now)) }
{
    for i in 0..holes.len() {
        let hole: &[Point] = &holes[i];
        if rings_meet(outline, hole, &BoundingBox::of_ring(hole)) {
            return Err(PolygonError::Meets(i, Ring::Outline));
        }
        if !is_inside(hole[0], outline) {
            return Err(PolygonError::Outside(i));
        }
        match check_pairs(holes, i) {
            Ok(()) => {}
            Err(error) => return Err(error),
        }
    }
    Ok(())
}

fn check_pairs(holes: &[Vec<Point>], i: usize) -> Result<(), PolygonError>
    requires index { i < length holes.now }
    requires corners { All HasCorner holes.now }
    ensures apart { OnOk result (IsDisjointFromEarlier (rings_of holes.now) i) }
    ensures reason { (outline : List Point) → IfErr result (IsReason outline (rings_of holes.now)) }
{
    let hole: &[Point] = &holes[i];
    let around = BoundingBox::of_ring(hole);
    for j in 0..i {
        let other: &[Point] = &holes[j];
        if rings_meet(other, hole, &around) {
            return Err(PolygonError::Meets(i, Ring::Hole(j)));
        }
        if is_inside(hole[0], other) {
            return Err(PolygonError::InHole(i, j));
        }
        if is_inside(other[0], hole) {
            return Err(PolygonError::InHole(j, i));
        }
    }
    Ok(())
}

fn check_ring(corners: &[Point], ring: Ring) -> Result<(), PolygonError>
    ensures area { OnOk result (HasArea corners.now) }
    ensures reason { IfErr result (IsRingFault corners.now ring) }
{
    if corners.len() < 3 {
        return Err(PolygonError::TooFewCorners(ring));
    }
    if double_area(corners) == 0 {
        return Err(PolygonError::NoArea(ring));
    }
    Ok(())
}
