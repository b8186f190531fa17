//! Bounding boxes.

ghost use Rattle.std.specs.Prelude.{pos, ◌<ℤ◌, ◌≤ℤ◌, ◌↔◌, All, IsTrue};
ghost use Rattle.triangulation.specs.Triangulations.{triangle_area, IsInTriangle};
ghost use Rattle.triangulation.specs.CornerIndexes.{IsInBox, BoxHasAllOf};

use crate::points::{Point, Triangle};

#[derive(Clone, Copy)]
pub struct BoundingBox {
    left: i32,
    right: i32,
    bottom: i32,
    top: i32,
}

impl BoundingBox {
    // Meets no other box.
    pub fn empty() -> BoundingBox {
        BoundingBox {
            left: i32::MAX,
            right: i32::MIN,
            bottom: i32::MAX,
            top: i32::MIN,
        }
    }

    pub fn with_point(self, p: Point) -> BoundingBox
        ensures point { IsInBox result p }
        ensures rest { BoxHasAllOf result self }
    {
        BoundingBox {
            left: self.left.min(p.x),
            right: self.right.max(p.x),
            bottom: self.bottom.min(p.y),
            top: self.top.max(p.y),
        }
    }

    pub fn with_box(self, other: BoundingBox) -> BoundingBox
        ensures first { BoxHasAllOf result self }
        ensures second { BoxHasAllOf result other }
    {
        BoundingBox {
            left: self.left.min(other.left),
            right: self.right.max(other.right),
            bottom: self.bottom.min(other.bottom),
            top: self.top.max(other.top),
        }
    }

    pub fn of_triangle(t: Triangle) -> BoundingBox
        ensures { pos 0 <ℤ triangle_area t → (p : Point) → IsInTriangle t p → IsInBox result p }
    {
        BoundingBox::empty()
            .with_point(t.a)
            .with_point(t.b)
            .with_point(t.c)
    }

    pub fn of_ring(ring: &[Point]) -> BoundingBox
        ensures { All (IsInBox result) ring.now }
    {
        let mut around = BoundingBox::empty();
        for p in ring {
            around = around.with_point(*p);
        }
        around
    }

    pub fn of_boxes(boxes: &[BoundingBox]) -> BoundingBox
        ensures { All (BoxHasAllOf result) boxes.now }
    {
        let mut around = BoundingBox::empty();
        for part in boxes {
            around = around.with_box(*part);
        }
        around
    }

    pub fn meets(&self, other: &BoundingBox) -> bool
        ensures { (p : Point) → IsInBox self.now p → IsInBox other.now p → IsTrue result }
    {
        self.left <= other.right
            && other.left <= self.right
            && self.bottom <= other.top
            && other.bottom <= self.top
    }

    pub fn has(&self, p: Point) -> bool
        ensures { IsTrue result ↔ IsInBox self.now p }
    {
        is_between(self.left, p.x, self.right) && is_between(self.bottom, p.y, self.top)
    }
}

fn is_between(low: i32, x: i32, high: i32) -> bool
    ensures { IsTrue result ↔ ((low ≤ℤ x) × (x ≤ℤ high)) }
{
    low <= x && x <= high
}
