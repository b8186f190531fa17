//! Rings in lines.

ghost use Rattle.std.specs.Prelude.{◌<◌, length};
ghost use Rattle.triangulate.specs.LinePolygons.{ParsesRings, TriangulatesLines};
ghost use Rattle.triangulate.specs.RingTexts.{texts_of, ParsesRing};

use crate::numbers::{LineError, end_of_spaces, number_at};
use arena_ptr::PtrKey;
use chain_traits::ChainArenaTrait;
use std::alloc::{AllocFailed, Global};
use triangulation::{Point, PolygonError, Triangle, triangulate_polygon};

impl<T: Drop> From<AllocFailed<T>> for LineError {
    ghost use Rattle.std.specs.Prelude.{◌≡◌};
    ghost use Rattle.triangulate.specs.declared.numbers.LineError.TheVariants as why;

    ghost from_gives = { λ _ e. e ≡ why.Memory };

    fn from(_refused: AllocFailed<T>) -> LineError {
        LineError::Memory
    }
}

#[derive(Clone, Copy, Debug, PartialEq, Eq)]
pub enum Refusal {
    /// The line of this index, from the outline on.
    Line(usize, LineError),
    Polygon(PolygonError),
}

fn ring(alloc: Global, line: &[u8]) -> Result<Vec<Point>, LineError>
    ensures { ParsesRing line.now result }
{
    let mut points = Vec::new(alloc);
    let mut at = 0;
    while end_of_spaces(line, at) < line.len() {
        let x = number_at(line, at)?;
        let y = number_at(line, x.1)?;
        points.push(Point { x: x.0, y: y.0 })?;
        at = y.1;
    }
    Ok(points)
}

fn rings(alloc: Global, lines: &[Vec<u8>]) -> Result<Vec<Vec<Point>>, Refusal>
    ensures { ParsesRings (texts_of lines.now) result }
{
    let mut rings = Vec::new(alloc);
    for i in 0..lines.len() {
        let points = match ring(alloc, &lines[i]) {
            Ok(points) => points,
            Err(error) => return Err(Refusal::Line(i, error)),
        };
        match rings.push(points) {
            Ok(()) => {}
            Err(_) => return Err(Refusal::Polygon(PolygonError::AllocError)),
        }
    }
    Ok(rings)
}

/// Triangulates the polygon of these lines, outline first.
pub fn triangulate_lines<P: PtrKey, A: ChainArenaTrait<P, Point> + Drop>(
    alloc: Global,
    lines: Vec<Vec<u8>>,
) -> Result<Vec<Triangle>, Refusal>
    requires { 0 < length lines.items }
    ensures { TriangulatesLines (texts_of lines.items) result }
{
    let rings = match rings(alloc, &lines) {
        Ok(rings) => rings,
        Err(refusal) => return Err(refusal),
    };
    drop(lines);
    match rings.split_first() {
        Some((outline, holes)) => match triangulate_polygon::<P, A>(alloc, outline, holes) {
            Ok(triangles) => Ok(triangles),
            Err(error) => Err(Refusal::Polygon(error)),
        },
        None => unreachable!(),
    }
}
