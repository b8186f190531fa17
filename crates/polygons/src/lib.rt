//! Polygons as rings of corners in any arena of links.
#![tactic(auto)]

mod polygons;

pub use polygons::{Polygons, exchange_twice_restores};
