// Tests of indexes, generations and pointers through their traits, and of the numbers of each type.
use crate::tests::support::{all, gen8, gen32, gen64, inx8, inx32, inx64};
use arena_ptr::{
    Gen8, Gen32, Gen64, GenKey, Inx8, Inx32, Inx64, InxKey, Ptr, PtrGen, PtrInx, PtrKey, ToolPtr,
};
use std::process::Abort;

// Returns whether a number makes an index of that number.
fn is_a_number<I: PtrInx>(n: usize) -> bool {
    match I::try_from_usize(n) {
        Some(i) => i.try_into_usize() == Some(n),
        None => false,
    }
}

// Returns whether the index's number makes it and not `other`, and packing keeps it and `None`.
fn is_well<I: PtrInx>(i: I, other: I) -> [bool; 4] {
    [
        I::try_from_usize(i.try_into_usize().unwrap_or(0)) == Some(i),
        i != other,
        I::unpack(I::pack(Some(i))) == Some(i),
        I::unpack(I::pack(None)).is_none(),
    ]
}

// Returns whether `last` follows `near`, the first follows `last` with an overflow, and `second`
// follows the first.
fn counts<G: PtrGen>(near: G, last: G, second: G) -> [bool; 4] {
    [
        near.generational_inc() == (last, false),
        last.generational_inc() == (G::two(), true),
        G::two().generational_inc() == (second, false),
        near != last,
    ]
}

fn is_made_of<P: Ptr>(p: P, inx: P::Inx, generation: P::Gen) -> [bool; 4] {
    [
        p.inx() == inx,
        p.generation() == generation,
        P::_from_raw(inx, generation) == p,
        p.is_same(P::invalid()) == (p == P::invalid()),
    ]
}

// Numbers of 8, 32 and 64 bits.
type Widths = (u8, u32, u64);

const ONES: Widths = (1, 1, 1);

const GREATEST: Widths = (255, 4_294_967_295, 18_446_744_073_709_551_615);

const SOME: Widths = (7, 70_000, u64::MAX);

const OTHERS: Widths = (200, 4_464, 1);

// Numbers, and whether each makes an index of each width.
static NUMBERS: [(usize, [bool; 3]); 7] = [
    (0, [false, false, false]),
    (1, [true, true, true]),
    (255, [true, true, true]),
    (256, [false, true, true]),
    (4_294_967_295, [false, true, true]),
    (4_294_967_296, [false, false, true]),
    (usize::MAX, [false, false, true]),
];

fn are_indexes(n: usize) -> [bool; 3] {
    [
        is_a_number::<Inx8>(n),
        is_a_number::<Inx32>(n),
        is_a_number::<Inx64>(n),
    ]
}

fn are_none() -> [bool; 6] {
    [
        Inx8::new(0).is_none(),
        Inx32::new(0).is_none(),
        Inx64::new(0).is_none(),
        Gen8::new(0).is_none(),
        Gen32::new(0).is_none(),
        Gen64::new(0).is_none(),
    ]
}

fn are_numbers(rt: &impl Abort, (a, b, c): Widths) -> [bool; 6] {
    [
        inx8(rt, a).get() == a,
        inx32(rt, b).get() == b,
        inx64(rt, c).get() == c,
        gen8(rt, a).get() == a,
        gen32(rt, b).get() == b,
        gen64(rt, c).get() == c,
    ]
}

fn check_well(rt: &impl Abort, (a, b, c): Widths, (d, e, f): Widths) {
    all(rt, "8 bits", &is_well(inx8(rt, a), inx8(rt, d)));
    all(rt, "32 bits", &is_well(inx32(rt, b), inx32(rt, e)));
    all(rt, "64 bits", &is_well(inx64(rt, c), inx64(rt, f)));
}

fn tool_ptr(rt: &impl Abort, inx: u32, generation: u32) -> ToolPtr {
    ToolPtr::_from_raw(inx32(rt, inx), gen32(rt, generation))
}

#[test]
fn indexes_range_from_one_to_the_greatest(rt: HostRuntime) {
    let greatest = [
        Inx8::greatest() == 255,
        Inx32::greatest() == 4_294_967_295,
        Inx64::greatest() == 18_446_744_073_709_551_615,
    ];
    all(&rt, "greatest", &greatest);
    for (n, want) in &NUMBERS {
        assert!(rt; are_indexes(*n) == *want, "the number {n} again");
    }
}

#[test]
fn every_number_but_zero_makes_an_index_and_a_generation(rt: HostRuntime) {
    all(&rt, "none of zero", &are_none());
    all(&rt, "one", &are_numbers(&rt, ONES));
    all(&rt, "greatest", &are_numbers(&rt, GREATEST));
}

#[test]
fn an_index_is_its_number(rt: HostRuntime) {
    for (numbers, others) in [(ONES, GREATEST), (GREATEST, ONES), (SOME, OTHERS)] {
        check_well(&rt, numbers, others);
    }
    all(&rt, "in order", &[inx8(&rt, 7) < inx8(&rt, 200)]);
}

// The last generation overflows to the first. The empty generation never overflows.
#[test]
fn generations_count_from_two_and_wrap(rt: HostRuntime) {
    let first = [
        Gen8::two().get() == 2,
        Gen32::two().get() == 2,
        Gen64::two().get() == 2,
        <() as GenKey>::two().generational_inc() == ((), false),
    ];
    all(&rt, "the first", &first);
    let of_8 = counts(gen8(&rt, 254), gen8(&rt, 255), gen8(&rt, 3));
    all(&rt, "of 8 bits", &of_8);
    let (near, last) = (gen32(&rt, u32::MAX - 1), gen32(&rt, u32::MAX));
    all(&rt, "of 32 bits", &counts(near, last, gen32(&rt, 3)));
    let (near, last) = (gen64(&rt, u64::MAX - 1), gen64(&rt, u64::MAX));
    all(&rt, "of 64 bits", &counts(near, last, gen64(&rt, 3)));
}

// Pointers are in order by index first.
#[test]
fn a_pointer_is_its_two_parts(rt: HostRuntime) {
    let p = tool_ptr(&rt, 3, 5);
    let new = tool_ptr(&rt, 1, 9);
    let (i, g) = (inx32(&rt, 1), gen32(&rt, 1));
    all(&rt, "parts", &is_made_of(p, inx32(&rt, 3), gen32(&rt, 5)));
    all(&rt, "invalid", &is_made_of(ToolPtr::invalid(), i, g));
    let order = [
        p != tool_ptr(&rt, 3, 2),
        p != tool_ptr(&rt, 4, 5),
        new < tool_ptr(&rt, 2, 8),
        tool_ptr(&rt, 1, 8) < new,
    ];
    all(&rt, "in order", &order);
}
