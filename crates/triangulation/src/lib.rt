//! Triangulation of polygons by ear clipping, exact over integer coordinates.
#![tactic(auto)]

mod areas;
mod bounds;
mod bridges;
mod clipping;
mod corner_index;
mod errors;
mod holes;
mod joining;
mod meetings;
mod outlines;
mod points;
mod ring_checks;
mod triangulation;
mod with_holes;

pub use areas::double_area;
pub use errors::{PolygonError, Ring, TriangulationError};
pub use points::{Point, Triangle, orientation};
pub use triangulation::{triangulate, triangulate_points};
pub use with_holes::triangulate_polygon;
