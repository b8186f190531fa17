//! Polygons over a chain arena, whose growth is refused now and then.
//!
//! The rows of a table are calls with what becomes of the polygons. A call that fails is made once
//! more, since it may have been refused memory; the polygons show whether the refusal changed them.
//! A table is run once more if the memory for its own lists is refused.

use arena_base::ArenaSlot;
use arena_ptr::{ChunkStack, HeapStack, LimitedStack, PtrKey, SlotStack, ToolPtr};
use chain_arena::{ChainArena, LinkNoGen};
use chain_traits::ChainArenaTrait;
use polygons::Polygons;
use std::alloc::{AllocError, Global};
use std::process::Abort;
use test_types::{EightSlots, FailingStack};

type Slot = ArenaSlot<ToolPtr, LinkNoGen<ToolPtr, u32>>;

// A call.
#[derive(Clone, Copy)]
enum Op {
    // A corner with a point is added: alone, or beside a corner.
    Start,
    After,
    Before,
    // The point is written by `replace`, or by `get_mut`.
    Replace,
    Write,
    Remove,
    // All of this many corners are removed.
    RemoveAll,
    Reverse,
    Exchange,
    Split,
    Reserve,
}

// A call, the position of a corner in the order of creation, a point or another position, whether
// the call succeeds, and then the points of each polygon, with a 0 between polygons. A polygon
// begins with the corner that was created first.
type Row = (Op, usize, u32, bool, u64);

// The square of the points 1 to 4.
const SQUARE: [Row; 22] = [
    (Op::Start, 0, 1, true, 1),
    (Op::After, 0, 2, true, 12),
    (Op::After, 1, 3, true, 123),
    (Op::Before, 0, 4, true, 1234),
    (Op::Reverse, 2, 0, true, 1432),
    (Op::Reverse, 0, 0, true, 1234),
    (Op::Replace, 1, 7, true, 1734),
    (Op::Write, 1, 2, true, 1234),
    (Op::Exchange, 0, 2, true, 14_0_23),
    (Op::Reverse, 1, 0, true, 14_0_23),
    (Op::Exchange, 0, 2, true, 1234),
    (Op::Exchange, 1, 1, true, 1234),
    (Op::Split, 0, 2, true, 123_0_413),
    (Op::Split, 0, 0, false, 123_0_413),
    (Op::RemoveAll, 3, 3, true, 123),
    (Op::RemoveAll, 4, 0, false, 123),
    (Op::Remove, 1, 2, true, 13),
    (Op::After, 1, 9, false, 13),
    (Op::Before, 1, 9, false, 13),
    (Op::Replace, 1, 9, false, 13),
    (Op::Exchange, 0, 1, false, 13),
    (Op::Split, 1, 0, false, 13),
];

// A bridge from a triangle to one in it.
const BRIDGE: [Row; 9] = [
    (Op::Start, 0, 1, true, 1),
    (Op::Reserve, 7, 0, true, 1),
    (Op::After, 0, 2, true, 12),
    (Op::After, 1, 3, true, 123),
    (Op::Start, 0, 4, true, 123_0_4),
    (Op::After, 3, 5, true, 123_0_45),
    (Op::After, 4, 6, true, 123_0_456),
    (Op::Split, 0, 3, true, 12314564),
    (Op::RemoveAll, 5, 8, true, 0),
];

// No ninth corner is added, and no split exceeds the maximum.
const WITHIN_EIGHT: [Row; 8] = [
    (Op::Start, 0, 1, true, 1),
    (Op::After, 0, 2, true, 12),
    (Op::After, 1, 3, true, 123),
    (Op::Split, 0, 1, true, 12_0_312),
    (Op::Split, 0, 1, true, 12_0_312_0_12),
    (Op::Start, 0, 8, true, 12_0_312_0_12_0_8),
    (Op::Split, 0, 1, false, 12_0_312_0_12_0_8),
    (Op::Start, 0, 9, false, 12_0_312_0_12_0_8),
];

// Returns a corner by its position, or an invalid pointer.
fn corner_at<P: PtrKey>(corners: &[P], position: usize) -> P {
    match corners.get(position) {
        Some(p) => *p,
        None => P::invalid(),
    }
}

fn digit_of(point: Option<&u32>) -> u64 {
    match point {
        Some(t) => u64::from(*t),
        None => 9,
    }
}

// Returns whether a corner is the previous one of its next one.
fn is_linked<P: PtrKey, A: ChainArenaTrait<P, u32> + Drop>(
    polygons: &Polygons<P, u32, A>,
    p: P,
) -> bool {
    match polygons.next(p) {
        Some(next) => match polygons.prev(next) {
            Some(before) => before.is_same(p),
            None => false,
        },
        None => false,
    }
}

// Appends the points of a polygon, or 99 if it is not linked.
fn with_polygon<P: PtrKey, A: ChainArenaTrait<P, u32> + Drop>(
    polygons: &Polygons<P, u32, A>,
    corners: &[P],
    digits: u64,
) -> u64 {
    let mut all = if digits == 0 {
        0
    } else {
        digits.wrapping_mul(10)
    };
    for p in corners {
        if !is_linked(polygons, *p) {
            return 99;
        }
        all = all
            .wrapping_mul(10)
            .wrapping_add(digit_of(polygons.get(*p)));
    }
    all
}

// Returns whether no earlier corner is in the polygon of a corner.
fn is_first<P: PtrKey, A: ChainArenaTrait<P, u32> + Drop>(
    polygons: &Polygons<P, u32, A>,
    earlier: &[P],
    p: P,
) -> bool {
    for q in earlier {
        if polygons.same_polygon(*q, p) {
            return false;
        }
    }
    true
}

// Returns the points of all polygons.
fn picture<P: PtrKey, A: ChainArenaTrait<P, u32> + Drop>(
    polygons: &Polygons<P, u32, A>,
    alloc: Global,
    corners: &[P],
) -> Result<u64, AllocError> {
    let mut digits = 0;
    let mut earlier: Vec<P> = Vec::new(alloc);
    for p in corners {
        if is_first(polygons, &earlier, *p) {
            digits = match polygons.walk(alloc, *p)? {
                Some(ring) => with_polygon(polygons, &ring, digits),
                None => digits,
            };
        }
        earlier.push(*p)?;
    }
    Ok(digits)
}

// Makes a call that adds corners, and returns them.
fn added<P: PtrKey, A: ChainArenaTrait<P, u32> + Drop>(
    polygons: &mut Polygons<P, u32, A>,
    corners: &[P],
    row: &Row,
) -> Option<(P, Option<P>)> {
    let (op, position, point, _, _) = *row;
    let p = corner_at(corners, position);
    match op {
        Op::Start => alone(polygons.start(point).ok()),
        Op::After => alone(polygons.insert_after(p, point).ok()),
        Op::Before => alone(polygons.insert_before(p, point).ok()),
        _ => {
            let q = corner_at(corners, usize::try_from(point).unwrap_or(0));
            match polygons.split(p, q) {
                Ok(Some((first, second))) => Some((first, Some(second))),
                _ => None,
            }
        }
    }
}

fn alone<P>(p: Option<P>) -> Option<(P, Option<P>)> {
    match p {
        Some(p) => Some((p, None)),
        None => None,
    }
}

// Makes a call that adds no corner, and returns whether it succeeds.
fn is_changed<P: PtrKey, A: ChainArenaTrait<P, u32> + Drop>(
    polygons: &mut Polygons<P, u32, A>,
    corners: &[P],
    row: &Row,
) -> bool {
    let (op, position, point, _, _) = *row;
    let p = corner_at(corners, position);
    let number = usize::try_from(point).unwrap_or(0);
    match op {
        Op::Replace => polygons.replace(p, point).is_some(),
        Op::Write => is_written(polygons.get_mut(p), point),
        Op::Remove => polygons.remove(p) == Some(point),
        Op::RemoveAll => polygons.remove_polygon(p) == Some(number),
        Op::Reverse => polygons.reverse(p).is_some(),
        Op::Exchange => polygons.exchange(p, corner_at(corners, number)).is_some(),
        _ => polygons.reserve(position).is_ok() && polygons.capacity() >= position,
    }
}

fn is_written(place: Option<&mut u32>, point: u32) -> bool {
    match place {
        Some(place) => {
            *place = point;
            true
        }
        None => false,
    }
}

// Makes a call, appends the new corners, and returns whether it succeeds.
fn is_done<P: PtrKey, A: ChainArenaTrait<P, u32> + Drop>(
    polygons: &mut Polygons<P, u32, A>,
    corners: &mut Vec<P>,
    row: &Row,
) -> Result<bool, AllocError> {
    match row.0 {
        Op::Start | Op::After | Op::Before | Op::Split => match added(polygons, corners, row) {
            Some((p, second)) => {
                corners.push(p)?;
                if let Some(q) = second {
                    corners.push(q)?;
                }
                Ok(true)
            }
            None => Ok(false),
        },
        _ => Ok(is_changed(polygons, corners, row)),
    }
}

// Returns whether a call does what its row states, at least on a second attempt.
fn row_holds<P: PtrKey, A: ChainArenaTrait<P, u32> + Drop>(
    polygons: &mut Polygons<P, u32, A>,
    alloc: Global,
    corners: &mut Vec<P>,
    row: &Row,
) -> Result<bool, AllocError> {
    let first = is_done(polygons, corners, row)?;
    let done = first || is_done(polygons, corners, row)?;
    Ok(done == row.3 && picture(&*polygons, alloc, corners)? == row.4)
}

// Returns the first row that does not hold.
fn first_wrong<P: PtrKey, A: ChainArenaTrait<P, u32> + Drop>(
    alloc: Global,
    rows: &[Row],
) -> Result<Option<usize>, AllocError> {
    let mut polygons = Polygons::<P, u32, A>::new(alloc);
    let mut corners = Vec::new(alloc);
    if !polygons.is_empty() || polygons.capacity() != 0 {
        return Ok(Some(0));
    }
    for (place, row) in rows.iter().enumerate() {
        if !row_holds(&mut polygons, alloc, &mut corners, row)? {
            return Ok(Some(place));
        }
    }
    polygons.all_in_polygons();
    Ok(None)
}

fn check<P: PtrKey, A: ChainArenaTrait<P, u32> + Drop>(
    rt: &impl Abort,
    alloc: Global,
    tables: &[&[Row]],
) {
    for (table, rows) in tables.iter().enumerate() {
        let wrong = match first_wrong::<P, A>(alloc, rows) {
            Err(_) => first_wrong::<P, A>(alloc, rows),
            done => done,
        };
        assert!(rt; wrong == Ok(None), "table {table}, {wrong:?}");
    }
}

// Only this body names the arena, since naming it is the cost.
fn over_stack<S: SlotStack<Item = Slot>>(rt: &impl Abort, alloc: Global, tables: &[&[Row]]) {
    check::<ToolPtr, ChainArena<ToolPtr, u32, S>>(rt, alloc, tables);
}

#[test]
fn polygons_change_as_stated(rt: HostRuntime) {
    over_stack::<HeapStack<Slot>>(&rt, rt.alloc(), &[&SQUARE, &BRIDGE]);
    over_stack::<ChunkStack<Slot>>(&rt, rt.alloc(), &[&SQUARE, &BRIDGE]);
}

#[test]
fn each_growth_is_refused_once(rt: HostRuntime) {
    over_stack::<FailingStack<HeapStack<Slot>>>(&rt, rt.alloc(), &[&SQUARE, &BRIDGE]);
}

#[test]
fn polygons_grow_within_a_maximum(rt: HostRuntime) {
    over_stack::<EightSlots<LimitedStack<Slot>>>(&rt, rt.alloc(), &[&WITHIN_EIGHT]);
}
