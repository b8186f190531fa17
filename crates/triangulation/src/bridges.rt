//! Bridges to holes.

ghost use Rattle.std.specs.Prelude.{◌<◌, length, IfSome};

use crate::points::{Point, is_left, is_left_or_on, orientation};

pub fn leftmost(ring: &[Point]) -> usize
    requires { 0 < length ring.now }
    ensures { result < length ring.now }
{
    let mut least = 0;
    for i in 1..ring.len() {
        if ring[i].x < ring[least].x {
            least = i;
        }
    }
    least
}

// Returns the least `x`, or 0 without corners.
pub fn left_end(ring: &[Point]) -> i32 {
    if ring.is_empty() {
        0
    } else {
        ring[leftmost(ring)].x
    }
}

// Returns the index of a corner visible from `from`, the leftmost corner of a disjoint hole inside.
pub fn find_bridge(outline: &[Point], from: Point) -> usize
    requires { 0 < length outline.now }
    ensures { result < length outline.now }
{
    match edge_to_the_left(outline, from) {
        Some(i) => visible_corner(outline, i, from),
        None => 0,
    }
}

fn next_index(outline: &[Point], i: usize) -> usize
    requires { i < length outline.now }
    ensures { result < length outline.now }
{
    if i + 1 < outline.len() { i + 1 } else { 0 }
}

fn previous_index(outline: &[Point], i: usize) -> usize
    requires { i < length outline.now }
    ensures { result < length outline.now }
{
    if i == 0 { outline.len() - 1 } else { i - 1 }
}

fn edge_to_the_left(outline: &[Point], from: Point) -> Option<usize>
    ensures { IfSome result (λ i. i < length outline.now) }
{
    let mut nearest = None;
    for i in 0..outline.len() {
        let end = outline[next_index(outline, i)];
        if is_descent_left_of(outline[i], end, from) && is_nearest(outline, i, nearest) {
            nearest = Some(i);
        }
    }
    nearest
}

fn is_nearest(outline: &[Point], i: usize, nearest: Option<usize>) -> bool
    requires first { i < length outline.now }
    requires second { IfSome nearest (λ j. j < length outline.now) }
{
    match nearest {
        Some(j) => is_nearer(outline, i, j),
        None => true,
    }
}

fn is_descent_left_of(p: Point, q: Point, from: Point) -> bool {
    p.y >= from.y && q.y < from.y && is_left_or_on(p, q, from)
}

// The descending edges at `i` and `j` do not cross.
fn is_nearer(outline: &[Point], i: usize, j: usize) -> bool
    requires first { i < length outline.now }
    requires second { j < length outline.now }
{
    let top = outline[i];
    let bottom = outline[next_index(outline, i)];
    let other_top = outline[j];
    let other_bottom = outline[next_index(outline, j)];
    if top.y <= other_top.y {
        let side = orientation(other_top, other_bottom, top);
        if side != 0 {
            return side > 0;
        }
    } else {
        let side = orientation(top, bottom, other_top);
        if side != 0 {
            return side < 0;
        }
    }
    if bottom.y >= other_bottom.y {
        is_left(other_top, other_bottom, bottom)
    } else {
        is_left(bottom, top, other_bottom)
    }
}

fn visible_corner(outline: &[Point], i: usize, from: Point) -> usize
    requires { i < length outline.now }
    ensures { result < length outline.now }
{
    let top = outline[i];
    let bottom = outline[next_index(outline, i)];
    let mut best = if top.x < bottom.x {
        i
    } else {
        next_index(outline, i)
    };
    let view = View {
        from,
        end: outline[best],
        top,
        bottom,
    };
    for j in 0..outline.len() {
        let corner = outline[j];
        if view.holds(corner)
            && view.is_before(corner, outline[best])
            && opens_to(outline, j, from)
        {
            best = j;
        }
    }
    best
}

// The triangle of `from`, the point to its left on the edge from `top` to `bottom`, and `end`.
#[derive(Clone, Copy)]
struct View {
    from: Point,
    end: Point,
    top: Point,
    bottom: Point,
}

impl View {
    fn holds(&self, p: Point) -> bool {
        p.x <= self.from.x && self.is_on_side(p) && is_left_or_on(self.top, self.bottom, p)
    }

    fn is_on_side(&self, p: Point) -> bool {
        if self.end.y >= self.from.y {
            p.y >= self.from.y && is_left_or_on(self.from, self.end, p)
        } else {
            p.y <= self.from.y && is_left_or_on(self.end, self.from, p)
        }
    }

    // Compares angles to the ray, then distances.
    fn is_before(&self, p: Point, q: Point) -> bool {
        let side = orientation(self.from, q, p);
        if side == 0 {
            return p.x >= q.x;
        }
        (side > 0) == (self.end.y >= self.from.y)
    }
}

// Returns whether `from` is in the interior angle at `i`.
fn opens_to(outline: &[Point], i: usize, from: Point) -> bool
    requires { i < length outline.now }
{
    let before = outline[previous_index(outline, i)];
    let corner = outline[i];
    let after = outline[next_index(outline, i)];
    let is_left_of_first = is_left(before, corner, from);
    let is_left_of_second = is_left(corner, after, from);
    if is_left(before, corner, after) {
        is_left_of_first && is_left_of_second
    } else {
        is_left_of_first || is_left_of_second
    }
}
