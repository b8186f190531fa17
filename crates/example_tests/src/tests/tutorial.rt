//! Tests of the functions of the tutorial that change and read chains.

use super::{Named, Wrong, number_of};
use arena_ptr::InvalidationResult;
use chain_examples::tutorial::{after, close, connect_pair, put_behind, remove_and_step};
use chain_links::LinkInsertKind;
use chain_traits::ChainArenaTrait;
use std::alloc::Global;

// A call on an arena.
#[derive(Clone, Copy)]
enum Op {
    // The new link's pointer, or 0 if it is refused. The first has no neighbors.
    Start,
    PutBehind,
    // The pointer after it, or 0.
    After,
    // 1 if they are connected.
    Connect,
    Close,
    // The index of the next link; 0x10 if there is none, and 0 if there is no link.
    RemoveAndStep,
}

// A call, a pointer or an index, a value or another pointer, what the call returns, and then the
// links at the indexes 1 to 4, each by its value, the index before it and the index after it.
type Row = (Op, u32, u32, u32, u64);

const ROWS: [Row; 24] = [
    (Op::Start, 0, 1, 0x12, 0x100_000_000_000),
    (Op::PutBehind, 0x12, 3, 0x22, 0x102_310_000_000),
    (Op::PutBehind, 0x12, 2, 0x32, 0x103_330_212_000),
    (Op::PutBehind, 0x13, 9, 0, 0x103_330_212_000),
    (Op::After, 0x12, 0, 0x32, 0x103_330_212_000),
    (Op::After, 0x32, 0, 0x22, 0x103_330_212_000),
    (Op::After, 0x22, 0, 0, 0x103_330_212_000),
    (Op::After, 0x13, 0, 0, 0x103_330_212_000),
    (Op::Connect, 0x22, 0x32, 0, 0x103_330_212_000),
    (Op::Close, 0x12, 0x22, 0, 0x103_330_212_000),
    (Op::Close, 0x22, 0x13, 0, 0x103_330_212_000),
    (Op::Close, 0x22, 0x12, 1, 0x123_331_212_000),
    (Op::After, 0x22, 0, 0x12, 0x123_331_212_000),
    (Op::RemoveAndStep, 3, 0, 2, 0x122_311_000_000),
    (Op::RemoveAndStep, 3, 0, 0, 0x122_311_000_000),
    (Op::Start, 0, 4, 0x33, 0x122_311_400_000),
    (Op::Start, 0, 5, 0x43, 0x122_311_400_500),
    (Op::Connect, 0x43, 0x33, 1, 0x122_311_440_503),
    (Op::Connect, 0x43, 0x33, 0, 0x122_311_440_503),
    (Op::Connect, 0x33, 0x32, 0, 0x122_311_440_503),
    (Op::After, 0x43, 0, 0x33, 0x122_311_440_503),
    (Op::RemoveAndStep, 3, 0, 0x10, 0x122_311_000_500),
    (Op::RemoveAndStep, 1, 0, 2, 0x000_322_000_500),
    (Op::RemoveAndStep, 9, 0, 0, 0x000_322_000_500),
];

// Appends a hexadecimal digit to a number.
fn with_digit(number: u64, digit: u32) -> u64 {
    number.wrapping_mul(16).wrapping_add(u64::from(digit))
}

// Returns an index by its number.
fn index_at<P: Named>(number: u32) -> P::Inx {
    P::at(number.wrapping_mul(16).wrapping_add(2)).inx()
}

// Returns the index of a pointer, or 0 for none.
fn index_of<P: Named>(p: Option<P>) -> u32 {
    number_of(p) / 16
}

// Appends the link at an index.
fn with_link<P: Named, A: ChainArenaTrait<P, u32>>(arena: &A, index: u32, all: u64) -> u64 {
    let (prev, next, t) = match arena.get_inx(index_at::<P>(index)) {
        Some((g, t)) => match arena.get_link(P::_from_raw(index_at::<P>(index), g)) {
            Some(link) => (index_of(link.prev()), index_of(link.next()), *t),
            None => (15, 15, 15),
        },
        None => (0, 0, 0),
    };
    with_digit(with_digit(with_digit(all, t), prev), next)
}

// Returns the links at the indexes 1 to 4.
fn contents<P: Named, A: ChainArenaTrait<P, u32>>(arena: &A) -> u64 {
    let mut all = 0;
    for index in 1..5 {
        all = with_link(arena, index, all);
    }
    all
}

// Returns the number of a step.
fn step_number<P: Named>(step: InvalidationResult<Option<P::Inx>>) -> u32 {
    match step {
        InvalidationResult::Success(Some(i)) => {
            index_of(Some(P::_from_raw(i, P::at(0x12).generation())))
        }
        InvalidationResult::Success(None) => 0x10,
        InvalidationResult::GenerationOverflow(_) => 0xff,
        InvalidationResult::InvalidPtr => 0,
    }
}

// Makes a call that inserts or removes.
fn edit<P: Named, A: ChainArenaTrait<P, u32>>(arena: &mut A, row: &Row) -> u32 {
    match row.0 {
        Op::Start => {
            number_of(
                arena
                    .insert_reallocating(LinkInsertKind::Disconnected, row.2)
                    .ok(),
            )
        }
        Op::PutBehind => number_of(put_behind(arena, P::at(row.1), row.2).ok()),
        _ => step_number::<P>(remove_and_step(arena, index_at::<P>(row.1))),
    }
}

// Makes a call, and returns the number of what it returns.
fn number_after<P: Named, A: ChainArenaTrait<P, u32>>(arena: &mut A, row: &Row) -> u32 {
    match row.0 {
        Op::After => number_of(after(&*arena, P::at(row.1))),
        Op::Connect => u32::from(connect_pair(arena, P::at(row.1), P::at(row.2))),
        Op::Close => u32::from(close(arena, P::at(row.1), P::at(row.2))),
        _ => edit(arena, row),
    }
}

// Returns the first row that does not hold.
pub(super) fn wrong<P: Named, A: ChainArenaTrait<P, u32> + Drop>(alloc: Global) -> Wrong {
    let mut arena = A::new(alloc);
    for (place, row) in ROWS.iter().enumerate() {
        let is_done = number_after(&mut arena, row) == row.3
            || number_after(&mut arena, row) == row.3;
        if !is_done || contents(&arena) != row.4 {
            return Some(place);
        }
    }
    None
}
