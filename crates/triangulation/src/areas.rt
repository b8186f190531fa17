//! Signed areas.

ghost use Rattle.std.specs.Prelude.{◌≡◌, ◌≤◌, ◌^◌, ◌*ℤ◌, unsigned_abs};
ghost use Rattle.polygon_laws.specs.Areas as area;
ghost use Rattle.triangulation.specs.Triangulations.{coordinates, polygon_area};

use crate::points::Point;

/// Returns twice the exact signed area: positive if the corners turn counterclockwise, 0 for fewer
/// than three.
pub fn double_area(corners: &[Point]) -> i128
    ensures { result ≡ polygon_area corners.now }
{
    if corners.is_empty() {
        return 0;
    }
    let mut before = corners[corners.len() - 1];
    let mut sum: i128 = 0;
    for corner in corners {
        sum += edge_area(before, *corner);
        before = *corner;
    }
    sum
}

fn edge_area(p: Point, q: Point) -> i128
    ensures value { result ≡ area.edge_area (coordinates p) (coordinates q) }
    ensures small { unsigned_abs result ≤ 2 ^ 63 }
{
    let first = coordinate_product(p.x, q.y);
    let second = coordinate_product(q.x, p.y);
    first - second
}

fn coordinate_product(a: i32, b: i32) -> i128
    ensures value { result ≡ a *ℤ b }
    ensures small { unsigned_abs result ≤ 2 ^ 62 }
{
    i128::from(a) * i128::from(b)
}
