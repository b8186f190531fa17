//! Errors.

ghost use Rattle.std.specs.Prelude.{codes, Some};

use std::alloc::{AllocError, AllocFailed};
use std::error::Error;
use std::fmt;

/// The reason why a polygon is not triangulated.
#[derive(Debug, Clone, Copy, PartialEq, Eq)]
pub enum TriangulationError {
    InvalidPointer,
    TooFewCorners,
    NoEar,
    AllocError,
}

/// The outline, or the hole at an index.
#[derive(Debug, Clone, Copy, PartialEq, Eq)]
pub enum Ring {
    Outline,
    Hole(usize),
}

/// The reason why a polygon with holes is not triangulated.
#[derive(Debug, Clone, Copy, PartialEq, Eq)]
pub enum PolygonError {
    TooFewCorners(Ring),
    NoArea(Ring),
    Meets(usize, Ring),
    Outside(usize),
    /// The first hole is in the second.
    InHole(usize, usize),
    NoEar,
    AllocError,
}

impl<T: Drop> From<AllocFailed<T>> for TriangulationError {
    ghost use Rattle.std.specs.Prelude.{◌≡◌};
    ghost use Rattle.triangulation.specs.declared.errors.TriangulationError.TheVariants as why;

    ghost from_gives = { λ _ e. e ≡ why.AllocError };

    fn from(_refused: AllocFailed<T>) -> TriangulationError {
        TriangulationError::AllocError
    }
}

impl From<AllocError> for TriangulationError {
    ghost use Rattle.std.specs.Prelude.{◌≡◌};
    ghost use Rattle.triangulation.specs.declared.errors.TriangulationError.TheVariants as why;

    ghost from_gives = { λ _ e. e ≡ why.AllocError };

    fn from(_error: AllocError) -> TriangulationError {
        TriangulationError::AllocError
    }
}

impl fmt::Display for TriangulationError {
    fn fmt<W: fmt::Write>(&self, f: &mut fmt::Formatter<W>) -> fmt::Result {
        f.write_str(match self {
            TriangulationError::InvalidPointer => "the pointer of the first corner is not valid",
            TriangulationError::TooFewCorners => "the polygon has fewer than three corners",
            TriangulationError::NoEar => "no remaining corner is an ear",
            TriangulationError::AllocError => "allocation failed, or the arena is full",
        })
    }
}

impl Error for TriangulationError {}

impl fmt::Display for Ring {
    fn fmt<W: fmt::Write>(&self, f: &mut fmt::Formatter<W>) -> fmt::Result {
        match self {
            Ring::Outline => f.write_str("the outline"),
            Ring::Hole(i) => write!(f, "hole {i}"),
        }
    }
}

impl fmt::Display for PolygonError {
    fn fmt<W: fmt::Write>(&self, f: &mut fmt::Formatter<W>) -> fmt::Result {
        match self {
            PolygonError::TooFewCorners(ring) => write!(f, "{ring} has fewer than three corners"),
            PolygonError::NoArea(ring) => write!(f, "{ring} has no area"),
            PolygonError::Meets(i, ring) => write!(f, "hole {i} and {ring} have a common point"),
            PolygonError::Outside(i) => write!(f, "hole {i} is outside the outline"),
            PolygonError::InHole(i, j) => write!(f, "hole {i} is in hole {j}"),
            PolygonError::NoEar => f.write_str("no remaining corner is an ear"),
            PolygonError::AllocError => f.write_str("allocation failed, or the arena is full"),
        }
    }
}

impl Error for PolygonError {}
