//! Triangulations of polygons with holes, whose areas were computed by hand.

use crate::tests::{holds, points_of, total_of};
use arena_ptr::{PtrKey, ToolPtr};
use chain_arena::ChainArena;
use chain_traits::ChainArenaTrait;
use std::alloc::Global;
use std::process::Abort;
use triangulation::{Point, PolygonError, Ring, triangulate_polygon};

// The number of triangles and twice their area.
type Total = Result<(usize, i128), PolygonError>;

type Corners<'a> = &'a [(i32, i32)];

const SQUARE: [(i32, i32); 4] = [(0, 0), (12, 0), (12, 12), (0, 12)];

const CLOCKWISE: [(i32, i32); 4] = [(0, 12), (12, 12), (12, 0), (0, 0)];

const MIDDLE: [(i32, i32); 4] = [(4, 4), (8, 4), (8, 8), (4, 8)];

const INNER: [(i32, i32); 3] = [(5, 5), (6, 5), (5, 6)];

// In a row with the middle one, beginning and ending at the height of its corners.
const LEFT: [(i32, i32); 4] = [(1, 4), (1, 8), (3, 8), (3, 4)];

const RIGHT: [(i32, i32); 4] = [(9, 4), (11, 4), (11, 8), (9, 8)];

const OUTSIDE: [(i32, i32); 3] = [(14, 4), (18, 4), (18, 8)];

const CROSSING: [(i32, i32); 3] = [(8, 8), (14, 8), (8, 10)];

// A corner is on the outline.
const TOUCHING: [(i32, i32); 3] = [(8, 8), (12, 9), (8, 10)];

// A corner is that of the middle one.
const KISSING: [(i32, i32); 3] = [(8, 8), (10, 9), (9, 10)];

const FLAT: [(i32, i32); 3] = [(1, 1), (2, 2), (3, 3)];

const PAIR: [(i32, i32); 2] = [(1, 1), (2, 2)];

const BOW: [(i32, i32); 4] = [(0, 0), (4, 4), (4, 0), (0, 8)];

fn total<P: PtrKey, A: ChainArenaTrait<P, Point> + Drop>(
    alloc: Global,
    outline: Corners<'_>,
    holes: &[Corners<'_>],
) -> Total {
    let mut rings = Vec::new(alloc);
    for hole in holes {
        let ring = points_of(alloc, hole).map_err(|_| PolygonError::AllocError)?;
        rings.push(ring).or(Err(PolygonError::AllocError))?;
    }
    let corners = points_of(alloc, outline).map_err(|_| PolygonError::AllocError)?;
    let triangles = triangulate_polygon::<P, A>(alloc, &corners, &rings)?;
    Ok(total_of(&triangles))
}

fn check_holes<P: PtrKey, A: ChainArenaTrait<P, Point> + Drop>(rt: &impl Abort, alloc: Global) {
    holds(
        rt,
        "none",
        total::<P, A>(alloc, &CLOCKWISE, &[]) == Ok((2, 288)),
    );
    let one: [Corners<'_>; 1] = [&MIDDLE];
    holds(
        rt,
        "one",
        total::<P, A>(alloc, &SQUARE, &one) == Ok((8, 256)),
    );
    holds(
        rt,
        "turned",
        total::<P, A>(alloc, &CLOCKWISE, &one) == Ok((8, 256)),
    );
    let three: [Corners<'_>; 3] = [&RIGHT, &LEFT, &MIDDLE];
    holds(
        rt,
        "three",
        total::<P, A>(alloc, &SQUARE, &three) == Ok((20, 224)),
    );
}

fn check_places<P: PtrKey, A: ChainArenaTrait<P, Point> + Drop>(rt: &impl Abort, alloc: Global) {
    let outline = Err(PolygonError::Meets(0, Ring::Outline));
    holds(
        rt,
        "crossing",
        total::<P, A>(alloc, &SQUARE, &[&CROSSING]) == outline,
    );
    holds(
        rt,
        "touching",
        total::<P, A>(alloc, &SQUARE, &[&TOUCHING]) == outline,
    );
    let first = Err(PolygonError::Meets(1, Ring::Hole(0)));
    holds(
        rt,
        "kissing",
        total::<P, A>(alloc, &SQUARE, &[&MIDDLE, &KISSING]) == first,
    );
    let outside = Err(PolygonError::Outside(1));
    holds(
        rt,
        "outside",
        total::<P, A>(alloc, &SQUARE, &[&MIDDLE, &OUTSIDE]) == outside,
    );
}

fn check_rings<P: PtrKey, A: ChainArenaTrait<P, Point> + Drop>(rt: &impl Abort, alloc: Global) {
    let inner = Err(PolygonError::InHole(1, 0));
    holds(
        rt,
        "inner",
        total::<P, A>(alloc, &SQUARE, &[&MIDDLE, &INNER]) == inner,
    );
    let flat = Err(PolygonError::NoArea(Ring::Hole(0)));
    holds(rt, "flat", total::<P, A>(alloc, &SQUARE, &[&FLAT]) == flat);
    let few = Err(PolygonError::TooFewCorners(Ring::Outline));
    holds(rt, "pair", total::<P, A>(alloc, &PAIR, &[]) == few);
    let no_ear = Err(PolygonError::NoEar);
    holds(rt, "bow", total::<P, A>(alloc, &BOW, &[]) == no_ear);
}

#[test]
fn polygons_with_holes_are_triangulated(rt: HostRuntime) {
    check_holes::<ToolPtr, ChainArena<ToolPtr, Point>>(&rt, rt.alloc());
    check_places::<ToolPtr, ChainArena<ToolPtr, Point>>(&rt, rt.alloc());
    check_rings::<ToolPtr, ChainArena<ToolPtr, Point>>(&rt, rt.alloc());
}
