//! Joining holes.

ghost use Rattle.std.specs.Prelude.{◌<◌, length, neg_ℤ, All, IfOk, IsTrue, IsFalse};
ghost use Rattle.triangulation.specs.Polygons.{rings_of, HasCorner, TurnsTo, IsTurnedTo, IsBridged, AreJoined};

use crate::areas::double_area;
use crate::bridges::{find_bridge, leftmost};
use crate::points::Point;
use std::alloc::{AllocError, Global};

#[derive(Clone, Copy, Debug, PartialEq, Eq)]
pub enum Turn {
    Counterclockwise,
    Clockwise,
}

pub fn turned_to(alloc: Global, ring: &[Point], turn: Turn) -> Result<Vec<Point>, AllocError>
    ensures { IfOk result (λ turned. IsTurnedTo turn ring.now turned.items) }
{
    let mut turned = Vec::from_slice(alloc, ring)?;
    if is_towards(turn, double_area(ring)) {
        return Ok(turned);
    }
    turned.reverse();
    Ok(turned)
}

fn is_towards(turn: Turn, area: i128) -> bool
    ensures yes { IsTrue result → TurnsTo turn area }
    ensures no { IsFalse result → TurnsTo turn (neg_ℤ area) }
{
    match turn {
        Turn::Counterclockwise => area >= 0,
        Turn::Clockwise => area <= 0,
    }
}

fn bridged(alloc: Global, outline: &[Point], hole: &[Point]) -> Result<Vec<Point>, AllocError>
    requires outline { 0 < length outline.now }
    requires hole { 0 < length hole.now }
    ensures { IfOk result (λ joined. IsBridged outline.now hole.now joined.items) }
{
    let v = leftmost(hole);
    let u = find_bridge(outline, hole[v]);
    let corners = outline.len().saturating_add(hole.len()).saturating_add(2);
    let mut joined = Vec::with_capacity(alloc, corners)?;
    joined.extend_from_slice(&outline[..u + 1])?;
    joined.extend_from_slice(&hole[v..])?;
    joined.extend_from_slice(&hole[..v + 1])?;
    joined.extend_from_slice(&outline[u..])?;
    Ok(joined)
}

pub fn joined(
    alloc: Global,
    outline: Vec<Point>,
    holes: &[Vec<Point>],
) -> Result<Vec<Point>, AllocError>
    requires outline { 0 < length outline.items }
    requires holes { All HasCorner holes.now }
    ensures { IfOk result (λ joined. AreJoined outline.items (rings_of holes.now) joined.items) }
{
    let mut joined = outline;
    for hole in holes {
        joined = bridged(alloc, &joined, hole)?;
    }
    Ok(joined)
}
