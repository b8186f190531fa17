//! Laws of the signed area, as contracts.
#![tactic(auto)]

ghost use Rattle.polygon_laws.specs.Areas.{AreaIsZeroWithoutEdges, TriangleIsOriented, AreaIsThatOfAnyTurn, ReversalNegatesArea, DiagonalSplitsArea, EarSplitsArea, BridgeAddsAreas};

/// Fewer than three corners have the area 0.
pub fn area_needs_three_corners()
    ensures { AreaIsZeroWithoutEdges }
{}

/// The area of three corners is their orientation.
pub fn triangle_is_oriented()
    ensures { TriangleIsOriented }
{}

/// The area is the same from any first corner.
pub fn turns_keep_the_area()
    ensures { AreaIsThatOfAnyTurn }
{}

/// A reversed polygon has the negative area.
pub fn reversal_negates_the_area()
    ensures { ReversalNegatesArea }
{}

/// The parts along a diagonal add up to the polygon.
pub fn diagonal_splits_the_area()
    ensures { DiagonalSplitsArea }
{}

/// Cutting off a corner subtracts its triangle.
pub fn ear_splits_the_area()
    ensures { EarSplitsArea }
{}

/// A bridge between polygons adds their areas.
pub fn bridge_adds_the_areas()
    ensures { BridgeAddsAreas }
{}
