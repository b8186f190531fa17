//! Output.

use crate::numbers::LineError;
use crate::rings::Refusal;
use itoa::Buffer;
use std::alloc::{AllocError, Global};
use triangulation::{Point, PolygonError, Ring, Triangle};

#[derive(Clone, Copy, Debug, PartialEq, Eq)]
pub enum Format {
    /// `x y x y x y` for each triangle, and an empty line after each polygon.
    Lines,
    /// One picture of all polygons.
    Svg,
}

pub fn push_number(text: &mut String, number: i64) -> Result<(), AllocError> {
    let mut buffer = Buffer::new();
    text.push_str(buffer.format(number))
}

fn push_point(text: &mut String, p: Point) -> Result<(), AllocError> {
    push_number(text, i64::from(p.x))?;
    text.push_str(" ")?;
    push_number(text, i64::from(p.y))
}

pub fn push_triangle(text: &mut String, t: Triangle) -> Result<(), AllocError> {
    push_point(text, t.a)?;
    text.push_str(" ")?;
    push_point(text, t.b)?;
    text.push_str(" ")?;
    push_point(text, t.c)
}

/// `first` is the outline's line number.
pub fn refusal_text(alloc: Global, first: u64, refusal: Refusal) -> Result<String, AllocError> {
    let (line, reason) = match refusal {
        Refusal::Line(i, error) => (i as u64, line_reason(error)),
        Refusal::Polygon(error) => (refused_ring(error), polygon_reason(error)),
    };
    let number = first.saturating_add(line);
    match other_ring(refusal) {
        Some(ring) => {
            let other = first.saturating_add(line_of(ring));
            format!(in alloc; "line {number}: {reason} the ring of line {other}")
        }
        None => format!(in alloc; "line {number}: {reason}"),
    }
}

/// Counts lines after the outline.
fn line_of(ring: Ring) -> u64 {
    match ring {
        Ring::Outline => 0,
        Ring::Hole(i) => (i as u64).saturating_add(1),
    }
}

fn refused_ring(error: PolygonError) -> u64 {
    match error {
        PolygonError::TooFewCorners(ring) | PolygonError::NoArea(ring) => line_of(ring),
        PolygonError::Meets(i, _) | PolygonError::Outside(i) | PolygonError::InHole(i, _) => {
            line_of(Ring::Hole(i))
        }
        PolygonError::NoEar | PolygonError::AllocError => 0,
    }
}

fn other_ring(refusal: Refusal) -> Option<Ring> {
    match refusal {
        Refusal::Polygon(PolygonError::Meets(_, ring)) => Some(ring),
        Refusal::Polygon(PolygonError::InHole(_, j)) => Some(Ring::Hole(j)),
        _ => None,
    }
}

fn line_reason(error: LineError) -> &'static str {
    match error {
        LineError::NotANumber => "not a number",
        LineError::OddNumber => "a point without a second number",
        LineError::TooLarge => "a coordinate beyond 2^30",
        LineError::Memory => "out of memory",
    }
}

fn polygon_reason(error: PolygonError) -> &'static str {
    match error {
        PolygonError::TooFewCorners(_) => "fewer than three corners",
        PolygonError::NoArea(_) => "no area",
        PolygonError::Meets(_, _) => "meets",
        PolygonError::Outside(_) => "outside the outline",
        PolygonError::InHole(_, _) => "inside",
        PolygonError::NoEar => "no ear, as where sides cross",
        PolygonError::AllocError => "out of memory",
    }
}
