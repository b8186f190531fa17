//! Points and triangles.

ghost use Rattle.std.specs.Prelude.{◌≡◌, ◌↔◌, ◌≤◌, ◌^◌, pos, ◌-ℤ◌, ◌*ℤ◌, ◌<ℤ◌, ◌≤ℤ◌, IsTrue, unsigned_abs};
ghost use Rattle.polygon_laws.specs.Areas as area;
ghost use Rattle.triangulation.specs.Triangulations.{coordinates, IsInTriangle};

/// A point with integer coordinates.
#[derive(Clone, Copy, Debug, PartialEq, Eq)]
pub struct Point {
    pub x: i32,
    pub y: i32,
}

/// A triangle, whose corners turn counterclockwise.
#[derive(Clone, Copy, Debug, PartialEq, Eq)]
pub struct Triangle {
    pub a: Point,
    pub b: Point,
    pub c: Point,
}

/// Returns twice the exact signed area of a triangle: positive if `r` is left of the line from `p`
/// to `q`, 0 if on it.
pub fn orientation(p: Point, q: Point, r: Point) -> i128
    ensures { result ≡ area.orientation (coordinates p) (coordinates q) (coordinates r) }
{
    let first = product(difference(q.x, p.x), difference(r.y, p.y));
    let second = product(difference(r.x, p.x), difference(q.y, p.y));
    first - second
}

pub fn is_left(p: Point, q: Point, r: Point) -> bool
    ensures { IsTrue result
        ↔ (pos 0 <ℤ area.orientation (coordinates p) (coordinates q) (coordinates r)) }
{
    orientation(p, q, r) > 0
}

fn difference(a: i32, b: i32) -> i128
    ensures value { result ≡ a -ℤ b }
    ensures small { unsigned_abs result ≤ 2 ^ 32 }
{
    i128::from(a) - i128::from(b)
}

fn product(a: i128, b: i128) -> i128
    requires first { unsigned_abs a ≤ 2 ^ 32 }
    requires second { unsigned_abs b ≤ 2 ^ 32 }
    ensures value { result ≡ a *ℤ b }
    ensures small { unsigned_abs result ≤ 2 ^ 64 }
{
    a * b
}

pub fn is_left_or_on(p: Point, q: Point, r: Point) -> bool
    ensures { IsTrue result
        ↔ (pos 0 ≤ℤ area.orientation (coordinates p) (coordinates q) (coordinates r)) }
{
    orientation(p, q, r) >= 0
}

pub fn is_in_triangle(p: Point, t: Triangle) -> bool
    ensures { IsTrue result ↔ IsInTriangle t p }
{
    if p == t.a || p == t.b || p == t.c {
        return false;
    }
    is_left_or_on(t.a, t.b, p) && is_left_or_on(t.b, t.c, p) && is_left_or_on(t.c, t.a, p)
}
