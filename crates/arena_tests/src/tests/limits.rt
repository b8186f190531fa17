//! Tests of other pointers (greatest index, greatest generation, wide indexes, no generations) and
//! of a maximum.

use super::pointers::{BarePtr, SmallPtr, TinyPtr, WidePtr};
use super::{Slot, limited, plays};
use arena_base::{ArenaSlot, ArenaTrait};
use arena_ptr::{ChunkStack, HeapStack, LimitStack, LimitedStack, PtrKey, SlotStack};
use chain_arena::{ChainArena, ChainArenaTrait, LinkInsertKind, LinkNoGen};
use std::alloc::Global;
use std::process::Abort;
use std::rc::Rc;
use test_types::numbered::Numbered;

const INDEXES: &str = "\
# 255 links fill it
InsertMany 255 = 255
Capacities = (255, 255)
Insert Disconnected 256 = Err(AllocError)
Reserve 256 = Err(AllocError)
Capacities = (255, 255)
# capacity up to the greatest index, where doubling would be more, and in a new arena
Reserve 255 = Ok(())
Capacities = (0, 255)
WithMinCapacity 200 = Ok((true, true))
WithMinCapacity 255 = Ok((true, true))
WithMinCapacity 256 = Err(AllocError)
# the same beside a link
InsertMany 1 = 1
Reserve 255 = Ok(())
Capacities = (1, 255)
# a link of a ring of two is removed; the next one has its index and an equal pointer
Insert Disconnected 1 = Ok(1)
Insert Disconnected 2 = Ok(2)
Connect 1 0 2 0 = true
Connect 2 0 1 0 = true
All = [((1, 0), 1, (2, 0), (2, 0)), ((2, 0), 2, (1, 0), (1, 0))]
Remove 2 0 = Success(2)
Link 2 0 = None
All = [((1, 0), 1, (1, 0), (1, 0))]
Insert Disconnected 9 = Ok(2)
Link 2 0 = Some(((0, 0), (0, 0), 9))
All = [((1, 0), 1, (1, 0), (1, 0)), ((2, 0), 9, (0, 0), (0, 0))]
# no generations
Linked 2 1 2 1 = true
CarryOut 3 = (Ok(()), [(1, 1, false, P0[1](3)), (2, 2, false, P0[2](3))]) ({P0[1](3): {2, 2} 11, P0[2](3): {1, 1} 22}, Gen32 { number: 3 }, Some(1000), true)
Len = 0
Counter = Some(0)
";

const GENERATIONS: &str = "\
# the counter overflows by a removal, and once more by a clear; a clear of no links leaves it
Insert Disconnected 1 = Ok(1(2))
Insert Disconnected 2 = Ok(2(2))
SetGeneration 255 = ()
Counter = Some(255)
Remove 1 2 = GenerationOverflow(1)
Counter = Some(2)
SetGeneration 255 = ()
Insert Disconnected 3 = Ok(1(ff))
RemoveInx 1 = GenerationOverflow((255, 3))
Counter = Some(2)
SetGeneration 255 = ()
Clear = GenerationOverflow(())
Clear = Success(())
Counter = Some(2)
# the counter overflows by a compression, after which each link has the counter
SetGeneration 255 = ()
Insert Disconnected 1 = Ok(1(ff))
Insert Disconnected 2 = Ok(2(ff))
Canonical 0 = GenerationOverflow(())
Counter = Some(2)
All = [((1, 2), 1, (0, 0), (0, 0)), ((2, 2), 2, (0, 0), (0, 0))]
# the counter overflows by the second link of a drained chain
SetGeneration 254 = ()
InsertMany 2 = 2
Connect 1 254 2 254 = true
DrainTwo 1 254 = [Some(false), Some(true)]
IsEmpty = true
Counter = Some(2)
# and by the second link of a transferred chain
SetGeneration 254 = ()
InsertMany 2 = 2
Connect 1 254 2 254 = true
CarryChain 1 254 = (Ok(Some(P0[2](3))), [(1(fe), 1, false, P0[2](3)), (2(fe), 2, true, P0[4](3))]) ({P0[1](2): {(start), 3} 91, P0[2](3): {(start), 4} 11, P0[3](2): {1, (end)} 93, P0[4](3): {2, (end)} 22}, Gen32 { number: 3 }, Some(1000), true)
IsEmpty = true
Counter = Some(2)
# the greatest generation
SetGeneration 254 = ()
InsertMany 2 = 2
CarryOut 2 = (Ok(()), [(1(fe), 1, false, P0[1](2)), (2(fe), 2, true, P0[2](2))]) ({P0[1](2): {(start), (end)} 11, P0[2](2): {(start), (end)} 22}, Gen32 { number: 2 }, Some(1000), true)
Len = 0
Counter = Some(2)
";

// An 8-bit index under a maximum of 255, which is reached by growth to 100, 200 and 255.
const UNDER_255: &str = "\
Reserve 100 = Ok(())
Capacities = (0, 100)
InsertMany 255 = 255
Insert Disconnected 256 = Err(BeyondMaxCapacity)
";

// An 8-bit index under a maximum of two. The maximum is tested first, but a new arena has none.
const UNDER_TWO: &str = "\
Reserve 256 = Err(BeyondMaxCapacity)
WithMinCapacity 256 = Err(AllocError)
";

// An 8-bit index under a maximum of 256, which there are no indexes for.
const UNDER_256: &str = "\
Reserve 256 = Err(AllocError)
Reserve 257 = Err(BeyondMaxCapacity)
";

// Wide indexes: a chain of 3 and 1, and a lone link between them.
const WIDE: &str = "\
# wide indexes
Linked 3 3 1 = true
CarryOut 7 = (Ok(()), [(3(2), 3, false, P0[1](7)), (1(2), 1, false, P0[2](7)), (2(2), 2, false, P0[3](7))]) ({P0[1](7): {(start), 2} 13, P0[2](7): {1, (end)} 21, P0[3](7): {(start), (end)} 32}, Gen32 { number: 7 }, Some(1000), true)
Len = 0
Counter = Some(5)
";

const TWO_INDEXES: &str = "\
# two links form a ring, and a third one is refused since no index is left
Capacities = (0, 0)
Insert Disconnected 1 = Ok(1)
Insert Disconnected 2 = Ok(2)
Connect 1 0 2 0 = true
Connect 2 0 1 0 = true
Insert Disconnected 3 = Err(AllocError)
All = [((1, 0), 1, (2, 0), (2, 0)), ((2, 0), 2, (1, 0), (1, 0))]
Link 1 0 = Some(((2, 0), (2, 0), 1))
Link 2 0 = Some(((1, 0), (1, 0), 2))
";

fn plays_at<P: Numbered, S: SlotStack<Item = Slot<P>>>(
    rt: &impl Abort,
    alloc: Global,
    table: &str,
) {
    let mut arena: ChainArena<P, u32, S> = ChainArena::new(alloc);
    plays(rt, alloc, &mut arena, table);
}

fn plays_under<P: Numbered, S: LimitStack<Item = Slot<P>>>(
    rt: &impl Abort,
    alloc: Global,
    most: usize,
    table: &str,
) {
    let mut arena: ChainArena<P, u32, S> = limited(alloc, most);
    plays(rt, alloc, &mut arena, table);
}

#[test]
fn an_index_of_8_bits_under_a_maximum(rt: HostRuntime) {
    for (most, table) in [(255, UNDER_255), (2, UNDER_TWO), (256, UNDER_256)] {
        plays_under::<BarePtr, LimitedStack<Slot<BarePtr>>>(&rt, rt.alloc(), most, table);
    }
}

// Each arena is passed to the body of the rows once, since that is the cost.
#[test]
fn other_pointers(rt: HostRuntime) {
    let alloc = rt.alloc();
    plays_at::<BarePtr, HeapStack<Slot<BarePtr>>>(&rt, alloc, INDEXES);
    plays_at::<BarePtr, ChunkStack<Slot<BarePtr>>>(&rt, alloc, INDEXES);
    plays_at::<SmallPtr, HeapStack<Slot<SmallPtr>>>(&rt, alloc, GENERATIONS);
    plays_at::<TinyPtr, HeapStack<Slot<TinyPtr>>>(&rt, alloc, TWO_INDEXES);
    plays_at::<WidePtr, LimitedStack<Slot<WidePtr>>>(&rt, alloc, WIDE);
}

// A slot for a shared value, whose strong count is the number of its copies.
type SharedLink<P> = ArenaSlot<P, LinkNoGen<P, Rc<u8>>>;

// Offers 300 values to an arena with a maximum. Returns its length and the number of copies.
fn passed_links<P: PtrKey, S: LimitStack<Item = SharedLink<P>>>(
    alloc: Global,
    most: usize,
) -> (usize, usize) {
    let Ok(value) = Rc::new(alloc, 5) else {
        return (0, 0);
    };
    let mut arena: ChainArena<P, Rc<u8>, S> = limited(alloc, most);
    for _ in 0..300 {
        if let Ok(one) = value.clone() {
            let _ = arena.insert_reallocating(LinkInsertKind::Disconnected, one);
        }
    }
    (arena.len(), Rc::strong_count(&value))
}

// A refused value is dropped, by a maximum of two or by the index type. Only the values in the
// arena and the original are left.
#[test]
fn refused_values_are_dropped(rt: HostRuntime) {
    for (most, left) in [(2, (2, 3)), (1000, (255, 256))] {
        let passed = passed_links::<BarePtr, LimitedStack<SharedLink<BarePtr>>>(rt.alloc(), most);
        assert!(rt; passed == left);
    }
}
