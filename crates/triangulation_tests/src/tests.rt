//! Triangulations of polygons whose areas were computed by hand.

use arena_ptr::{PtrKey, ToolPtr};
use chain_arena::ChainArena;
use chain_traits::ChainArenaTrait;
use polygons::Polygons;
use std::alloc::Global;
use std::process::Abort;
use triangulation::{
    Point, Triangle, TriangulationError, orientation, triangulate, triangulate_points,
};

// The number of triangles and twice their area.
type Total = Result<(usize, i128), TriangulationError>;

const SQUARE: [(i32, i32); 4] = [(0, 0), (3, 0), (3, 3), (0, 3)];

const CLOCKWISE: [(i32, i32); 4] = [(0, 0), (0, 3), (3, 3), (3, 0)];

const BOW: [(i32, i32); 4] = [(0, 0), (2, 2), (2, 0), (0, 2)];

// The second corner is on the lower side.
const FLAT: [(i32, i32); 5] = [(0, 0), (2, 0), (4, 0), (4, 4), (0, 4)];

// The last corner is in the triangle of the first three, so these are no ear.
const DART: [(i32, i32); 4] = [(0, 4), (0, 0), (4, 0), (1, 1)];

const LINE: [(i32, i32); 3] = [(0, 0), (1, 0), (2, 0)];

const PAIR: [(i32, i32); 2] = [(0, 0), (1, 0)];

const BEND: [(i32, i32); 6] = [(0, 0), (4, 0), (4, 2), (2, 2), (2, 4), (0, 4)];

// The square of all coordinates.
const ALL: [(i32, i32); 4] = [
    (i32::MIN, i32::MIN),
    (i32::MAX, i32::MIN),
    (i32::MAX, i32::MAX),
    (i32::MIN, i32::MAX),
];

// Five teeth of width 2 and height 8 on a bar of width 18 and height 2.
const COMB: [(i32, i32); 20] = [
    (0, 0),
    (18, 0),
    (18, 10),
    (16, 10),
    (16, 2),
    (14, 2),
    (14, 10),
    (12, 10),
    (12, 2),
    (10, 2),
    (10, 10),
    (8, 10),
    (8, 2),
    (6, 2),
    (6, 10),
    (4, 10),
    (4, 2),
    (2, 2),
    (2, 10),
    (0, 10),
];

pub fn total_of(triangles: &[Triangle]) -> (usize, i128) {
    let mut sum: i128 = 0;
    for t in triangles {
        sum = sum.wrapping_add(orientation(t.a, t.b, t.c));
    }
    (triangles.len(), sum)
}

pub fn points_of(alloc: Global, corners: &[(i32, i32)]) -> Result<Vec<Point>, TriangulationError> {
    let mut points = Vec::new(alloc);
    for corner in corners {
        points.push(Point {
            x: corner.0,
            y: corner.1,
        })?;
    }
    Ok(points)
}

fn total<P: PtrKey, A: ChainArenaTrait<P, Point> + Drop>(
    alloc: Global,
    corners: &[(i32, i32)],
) -> Total {
    let points = points_of(alloc, corners)?;
    let triangles = triangulate_points::<P, A>(alloc, &points)?;
    Ok(total_of(&triangles))
}

pub fn holds(rt: &impl Abort, what: &str, condition: bool) {
    assert!(rt; condition, "{what}");
}

fn check_shapes<P: PtrKey, A: ChainArenaTrait<P, Point> + Drop>(rt: &impl Abort, alloc: Global) {
    holds(rt, "square", total::<P, A>(alloc, &SQUARE) == Ok((2, 18)));
    holds(rt, "bend", total::<P, A>(alloc, &BEND) == Ok((4, 24)));
    holds(rt, "dart", total::<P, A>(alloc, &DART) == Ok((2, 8)));
    holds(rt, "comb", total::<P, A>(alloc, &COMB) == Ok((18, 232)));
    holds(rt, "flat", total::<P, A>(alloc, &FLAT) == Ok((3, 32)));
    let all: i128 = 36_893_488_130_239_234_050;
    holds(rt, "all", total::<P, A>(alloc, &ALL) == Ok((2, all)));
}

fn check_refusals<P: PtrKey, A: ChainArenaTrait<P, Point> + Drop>(rt: &impl Abort, alloc: Global) {
    let no_ear = Err(TriangulationError::NoEar);
    holds(rt, "clockwise", total::<P, A>(alloc, &CLOCKWISE) == no_ear);
    holds(rt, "bow", total::<P, A>(alloc, &BOW) == no_ear);
    holds(rt, "line", total::<P, A>(alloc, &LINE) == no_ear);
    let too_few = Err(TriangulationError::TooFewCorners);
    holds(rt, "pair", total::<P, A>(alloc, &PAIR) == too_few);
}

// The second polygon in an arena, a triangle, and its first corner once it is removed.
fn in_arena<P: PtrKey, A: ChainArenaTrait<P, Point> + Drop>(
    alloc: Global,
) -> Option<(Total, Total)> {
    let mut polygons: Polygons<P, Point, A> = Polygons::new(alloc);
    polygons.start(Point { x: 9, y: 9 }).ok()?;
    let first = polygons.start(Point { x: 0, y: 0 }).ok()?;
    let second = polygons.insert_after(first, Point { x: 5, y: 0 }).ok()?;
    polygons.insert_after(second, Point { x: 0, y: 4 }).ok()?;
    let whole = triangulate(&polygons, alloc, second).map(|triangles| total_of(&triangles));
    polygons.remove(second);
    let gone = triangulate(&polygons, alloc, second).map(|triangles| total_of(&triangles));
    Some((whole, gone))
}

fn check_second<P: PtrKey, A: ChainArenaTrait<P, Point> + Drop>(rt: &impl Abort, alloc: Global) {
    let gone = Err(TriangulationError::InvalidPointer);
    holds(
        rt,
        "second",
        in_arena::<P, A>(alloc) == Some((Ok((1, 20)), gone)),
    );
}

#[test]
fn polygons_are_triangulated(rt: HostRuntime) {
    check_shapes::<ToolPtr, ChainArena<ToolPtr, Point>>(&rt, rt.alloc());
    check_refusals::<ToolPtr, ChainArena<ToolPtr, Point>>(&rt, rt.alloc());
    check_second::<ToolPtr, ChainArena<ToolPtr, Point>>(&rt, rt.alloc());
}
