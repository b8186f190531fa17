// Tests of slot stacks through their trait bounds: growth, refusals, edits and maxima.
use crate::tests::support::{all, same};
use arena_ptr::{ChunkStack, HeapStack, LimitStack, LimitedStack, ReallocationError, SlotStack};
use std::alloc::Global;
use std::mem;
use std::process::Abort;
use std::rc::Rc;
use test_types::FailingStack;
use test_types::lines::{Words, read, text};

// Appends an item, growing the stack first if it is full, and returns whether it grew.
fn push<S: SlotStack>(stack: &mut S, item: S::Item) -> Result<bool, ReallocationError> {
    let full = stack.len() == stack.capacity();
    if full {
        stack.reserve_to(stack.len() + 1)?;
    }
    stack.push_within(item);
    Ok(full)
}

fn replace<E: Drop, S: SlotStack<Item = E>>(stack: &mut S, i: usize, item: E) -> Option<E> {
    match stack.get_mut(i) {
        Some(slot) => Some(mem::replace(slot, item)),
        None => None,
    }
}

// Returns the length, capacity and maximum.
fn shape<S: SlotStack<Item = u32>>(stack: &S) -> (usize, usize, Option<usize>) {
    (stack.len(), stack.capacity(), stack.max_capacity())
}

// Returns the items as a text.
fn items<S: SlotStack<Item = u32>>(alloc: Global, stack: &S) -> String {
    let mut items = Vec::new(alloc);
    for i in 0..stack.len() {
        let _ = items.push(stack.get(i).copied());
    }
    text(alloc, items)
}

// Pushes 0, 1, .., at most `n` numbers, until one is refused, and counts the growths.
fn fill<S: SlotStack<Item = u32>>(stack: &mut S, n: u32) -> u32 {
    let mut growths = 0u32;
    for k in 0..n {
        match push(stack, k) {
            Ok(true) => growths = growths.saturating_add(1),
            Ok(false) => {}
            Err(_) => break,
        }
    }
    growths
}

// Reserves a capacity, and returns whether the stack grew.
fn reserve<S: SlotStack<Item = u32>>(stack: &mut S, n: usize) -> Result<bool, ReallocationError> {
    let capacity = stack.capacity();
    match stack.reserve_to(n) {
        Ok(()) => Ok(stack.capacity() > capacity),
        Err(error) => Err(error),
    }
}

// Reserves the greatest capacity, and returns whether length, capacity and maximum are unchanged.
fn reserve_most<S: SlotStack<Item = u32>>(stack: &mut S) -> (Result<(), ReallocationError>, bool) {
    let before = shape(stack);
    let reply = stack.reserve_to(usize::MAX);
    (reply, shape(stack) == before)
}

fn swap<S: SlotStack<Item = u32>>(stack: &mut S, i: usize, j: usize) {
    if i < stack.len() && j < stack.len() {
        stack.swap(i, j);
    }
}

fn truncate<S: SlotStack<Item = u32>>(stack: &mut S, n: usize) {
    if n <= stack.len() {
        stack.truncate(n);
    }
}

// Runs an edit or a read of items. `Swap` and `Truncate` return the item then at the first number.
fn run_edit<S: SlotStack<Item = u32>>(alloc: Global, stack: &mut S, words: Words<'_>) -> String {
    let [n, m, ..] = words.numbers;
    let (i, j) = (n as usize, m as usize);
    match words.name {
        "Write" => return text(alloc, replace(stack, i, m)),
        "Swap" => swap(stack, i, j),
        "Truncate" => truncate(stack, i),
        "Get" => {}
        _ => return String::new(alloc),
    }
    text(alloc, stack.get(i))
}

// Runs a call. `Fill` returns whether the stack grew, and `FillInFew` whether in at most so many
// growths. `Push` and `Reserve` return whether it grew, or why it did not. `Grow` reserves at least
// a capacity.
fn run_call<S: SlotStack<Item = u32>>(alloc: Global, stack: &mut S, words: Words<'_>) -> String {
    let [n, m, ..] = words.numbers;
    match words.name {
        "Fill" => text(alloc, fill(stack, n) > 0),
        "FillInFew" => text(alloc, fill(stack, n) <= m),
        "Push" => text(alloc, push(stack, n)),
        "Reserve" => text(alloc, reserve(stack, n as usize)),
        "ReserveMost" => text(alloc, reserve_most(stack)),
        "Grow" => {
            let is_grown = stack.reserve_to(n as usize).is_ok();
            text(alloc, is_grown && stack.capacity() >= n as usize)
        }
        "Shape" => text(alloc, shape(stack)),
        "Items" => items(alloc, stack),
        _ => run_edit(alloc, stack, words),
    }
}

// Checks the reply of a line, or makes a new stack.
fn plays_line<S: SlotStack<Item = u32>>(rt: &impl Abort, alloc: Global, stack: &mut S, line: &str) {
    match line.split_once(" = ") {
        Some((call, want)) => {
            let got = run_call(alloc, stack, read(call));
            same(rt, line, got.as_str(), want);
        }
        None => *stack = S::new(alloc),
    }
}

fn plays<S: SlotStack<Item = u32>>(rt: &impl Abort, alloc: Global, stack: &mut S, table: &str) {
    for line in table.lines() {
        plays_line(rt, alloc, stack, line);
    }
}

// A maximum is tested before memory is requested, and is not set below the capacity. Raised from 5
// to 7, it allows two more items. Under a maximum of zero nothing is pushed.
const MAXIMA: [(usize, &str, &str); 5] = [
    (
        5,
        "Ok(())",
        "\
Shape = (0, 0, Some(5))
Fill 5 = true
Reserve 6 = Err(BeyondMaxCapacity)
ReserveMost = (Err(BeyondMaxCapacity), true)
Push 5 = Err(BeyondMaxCapacity)
Reserve 5 = Ok(false)
",
    ),
    (
        4,
        "Err(MaxCapacityReductionError)",
        "\
Shape = (5, 5, Some(5))
Items = [Some(0), Some(1), Some(2), Some(3), Some(4)]
",
    ),
    (
        7,
        "Ok(())",
        "\
Reserve 5 = Ok(false)
Push 5 = Ok(true)
Shape = (6, 7, Some(7))
Push 6 = Ok(false)
Push 7 = Err(BeyondMaxCapacity)
Shape = (7, 7, Some(7))
Items = [Some(0), Some(1), Some(2), Some(3), Some(4), Some(5), Some(6)]
",
    ),
    (
        100,
        "Ok(())",
        "\
Shape = (7, 7, Some(100))
Reserve 100 = Ok(true)
Shape = (7, 100, Some(100))
Items = [Some(0), Some(1), Some(2), Some(3), Some(4), Some(5), Some(6)]
# a new stack
",
    ),
    (
        0,
        "Ok(())",
        "\
Push 1 = Err(BeyondMaxCapacity)
Shape = (0, 0, Some(0))
",
    ),
];

// Sets each maximum in turn, and runs its lines.
fn check_maxima<S: LimitStack<Item = u32>>(rt: &impl Abort, alloc: Global) {
    let mut stack = S::new(alloc);
    for (most, want, table) in MAXIMA {
        let set = text(alloc, stack.set_max_capacity(most));
        same(rt, "a maximum", set.as_str(), want);
        plays(rt, alloc, &mut stack, table);
    }
}

// Fills a new stack in few growths, since each at least doubles the capacity: 1, 2, 4, .. 1024.
// One item takes a capacity of one.
const DOUBLED: &str = "\
Fill 1 = true
Shape = (1, 1, None)
# a new stack
Shape = (0, 0, None)
Get 0 = None
FillInFew 1000 11 = true
";

// Reads at the end of 1000 numbers and beyond, and edits that leave four and keep the capacity.
// Then growths beyond the capacity for one item, and one too large for any allocation, which
// changes nothing.
const EDITS: &str = "\
Shape = (1000, 1024, None)
Reserve 1024 = Ok(false)
Get 999 = Some(999)
Get 1000 = None
Write 1 70 = Some(1)
Write 1000 70 = None
Swap 0 999 = Some(999)
Swap 2 2 = Some(2)
Write 3 80 = Some(3)
Truncate 4 = None
Truncate 4 = None
Items = [Some(999), Some(70), Some(2), Some(80)]
Shape = (4, 1024, None)
Truncate 0 = None
Shape = (0, 1024, None)
# a new stack
Fill 1 = true
Grow 100 = true
Fill 2 = false
ReserveMost = (Err(AllocError), true)
Grow 1000 = true
Items = [Some(0), Some(0), Some(1)]
";

// Rations, and what is left when each is used up before the refusal: capacities 0, 1, 2 and 4.
const GROWTHS: [(u32, &str); 4] = [
    (0, "Fill 100 = false\nShape = (0, 0, None)\nItems = []"),
    (
        1,
        "Fill 100 = true\nShape = (1, 1, None)\nItems = [Some(0)]",
    ),
    (
        2,
        "Fill 100 = true\nShape = (2, 2, None)\nItems = [Some(0), Some(1)]",
    ),
    (
        3,
        "Fill 100 = true\nShape = (4, 4, None)\nItems = [Some(0), Some(1), Some(2), Some(3)]",
    ),
];

fn check_rations<S: SlotStack<Item = u32>>(rt: &impl Abort, alloc: Global) {
    for (ration, table) in GROWTHS {
        let mut stack = FailingStack::with_ration(S::new(alloc), ration);
        plays(rt, alloc, &mut stack, table);
    }
}

// Lengths to which a stack of 70 items is truncated in turn. A stack in blocks has two blocks then.
const LENGTHS: [usize; 7] = [70, 66, 64, 3, 1, 1, 0];

// Pushes 70 copies of a shared value, and returns how many there are.
fn push_copies<S: SlotStack<Item = Rc<u8>>>(stack: &mut S, value: &Rc<u8>) -> usize {
    for _ in 0..70 {
        if let Ok(copy) = value.clone() {
            let _ = push(stack, copy);
        }
    }
    Rc::strong_count(value)
}

// Truncates a stack to a length, and returns how many copies are left.
fn copies_left<S: SlotStack<Item = Rc<u8>>>(stack: &mut S, value: &Rc<u8>, n: usize) -> usize {
    if n <= stack.len() {
        stack.truncate(n);
    }
    Rc::strong_count(value)
}

// Returns whether each truncation drops the items behind the rest, once. The value counts, too.
fn drops_the_rest<S: SlotStack<Item = Rc<u8>>>(alloc: Global) -> bool {
    let Ok(value) = Rc::new(alloc, 5) else {
        return false;
    };
    let mut stack = S::new(alloc);
    let mut are_dropped = push_copies(&mut stack, &value) == 71;
    for n in LENGTHS {
        let is_right = copies_left(&mut stack, &value, n) == n.saturating_add(1);
        are_dropped = are_dropped && is_right;
    }
    are_dropped
}

// Capacity grows in blocks of 64. Then fills a new stack in few growths, since each adds a block:
// 64, 128, .. 1024. One item takes a capacity of one block.
const IN_BLOCKS: &str = "\
Reserve 1 = Ok(true)
Shape = (0, 64, None)
Reserve 64 = Ok(false)
Shape = (0, 64, None)
Reserve 65 = Ok(true)
Shape = (0, 128, None)
Push 7 = Ok(false)
ReserveMost = (Err(AllocError), true)
Shape = (1, 128, None)
Items = [Some(7)]
# a new stack
Fill 1 = true
Shape = (1, 64, None)
# a new stack
Shape = (0, 0, None)
Get 0 = None
FillInFew 1000 16 = true
";

// Grows by several blocks at once: all or none are added, and a second call succeeds. Returns
// whether the first one does.
fn adds_blocks<S: SlotStack<Item = u32>>(rt: &impl Abort, stack: &mut S) -> bool {
    let is_grown = stack.reserve_to(300).is_ok();
    let want = if is_grown { 320 } else { 0 };
    let are_right = [
        shape(stack) == (0, want, None),
        stack.reserve_to(300).is_ok(),
        shape(stack) == (0, 320, None),
    ];
    all(rt, "all or none", &are_right);
    is_grown
}

// Where one request is refused, as by `tools/test alloc_failures`, one of two stacks grows at once.
#[test]
fn blocks_or_none(rt: HostRuntime) {
    let mut one = ChunkStack::<u32>::new(rt.alloc());
    let mut other = ChunkStack::<u32>::new(rt.alloc());
    let (first, second) = (adds_blocks(&rt, &mut one), adds_blocks(&rt, &mut other));
    all(&rt, "one of two grows", &[first || second]);
}

fn check_growth<S: SlotStack<Item = u32>>(rt: &impl Abort, alloc: Global, growths: &str) {
    let mut stack = S::new(alloc);
    plays(rt, alloc, &mut stack, growths);
    plays(rt, alloc, &mut stack, EDITS);
}

// Checks a plain stack, one with an optional maximum, and one in blocks.
fn check_each<H: SlotStack<Item = u32>, L: LimitStack<Item = u32>, C: SlotStack<Item = u32>>(
    rt: &impl Abort,
    alloc: Global,
) {
    check_growth::<H>(rt, alloc, DOUBLED);
    check_rations::<H>(rt, alloc);
    check_growth::<L>(rt, alloc, DOUBLED);
    check_maxima::<L>(rt, alloc);
    check_growth::<C>(rt, alloc, IN_BLOCKS);
}

#[test]
fn stacks_of_numbers(rt: HostRuntime) {
    check_each::<HeapStack<u32>, LimitedStack<u32>, ChunkStack<u32>>(&rt, rt.alloc());
}

#[test]
fn a_truncation_drops_the_rest(rt: HostRuntime) {
    let alloc = rt.alloc();
    let are_dropped = [
        drops_the_rest::<HeapStack<Rc<u8>>>(alloc),
        drops_the_rest::<LimitedStack<Rc<u8>>>(alloc),
        drops_the_rest::<ChunkStack<Rc<u8>>>(alloc),
    ];
    all(&rt, "each stack", &are_dropped);
}
