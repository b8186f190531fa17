//! Rows of the inherent calls of a chain arena.

// Walks to the end and then from the link before back to the start, or once around a ring. Walks
// backwards to the start and then from the end, or once around a ring.
const WALKS: &str = "\
# a row of three, of which the middle one is taken out again
Insert Disconnected 10 = Ok(P0[1](2))
Insert ChainEnd 1 2 30 = Ok(P0[2](2))
Insert NextTo 1 2 20 = Ok(P0[3](2))
Walk 1 2 = [(P0[1](2), {(start), 3} 10), (P0[3](2), {1, 2} 20), (P0[2](2), {3, (end)} 30)]
Remove 3 2 = Success(20)
Value 3 2 = None
Walk 1 2 = [(P0[1](2), {(start), 2} 10), (P0[2](2), {1, (end)} 30)]
Chains = Ok([ChainHead { first: P0[1](2), is_cyclic: false }])
# a linear chain
Linked 4 3 1 4 2 = true
Walk 1 2 = [(P0[1](2), {3, 4} 1), (P0[4](2), {1, 2} 4), (P0[2](2), {4, (end)} 2), (P0[3](2), {(start), 1} 3)]
Walk 2 2 = [(P0[2](2), {4, (end)} 2), (P0[4](2), {1, 2} 4), (P0[1](2), {3, 4} 1), (P0[3](2), {(start), 1} 3)]
WalkBack 4 2 = [(P0[4](2), {1, 2} 4), (P0[1](2), {3, 4} 1), (P0[3](2), {(start), 1} 3), (P0[2](2), {4, (end)} 2)]
WalkBack 1 2 = [(P0[1](2), {3, 4} 1), (P0[3](2), {(start), 1} 3), (P0[2](2), {4, (end)} 2), (P0[4](2), {1, 2} 4)]
WalkBack 3 2 = [(P0[3](2), {(start), 1} 3), (P0[2](2), {4, (end)} 2), (P0[4](2), {1, 2} 4), (P0[1](2), {3, 4} 1)]
WalkBack 2 2 = [(P0[2](2), {4, (end)} 2), (P0[4](2), {1, 2} 4), (P0[1](2), {3, 4} 1), (P0[3](2), {(start), 1} 3)]
AlongBack 1 2 9 2 = Some([P0[1](2), P0[3](2), P0[2](2), P0[4](2)])
AlongBack 3 2 9 2 = Some([P0[3](2), P0[2](2), P0[4](2), P0[1](2)])
Starts = [P0[3](2)]
BreakNext 1 2 = true
Starts = [P0[3](2), P0[4](2)]
Chains = Ok([ChainHead { first: P0[3](2), is_cyclic: false }, ChainHead { first: P0[4](2), is_cyclic: false }])
# a ring of three, and a lone link
Linked 4 1 2 3 1 = true
Walk 2 2 = [(P0[2](2), {1, 3} 2), (P0[3](2), {2, 1} 3), (P0[1](2), {3, 2} 1)]
WalkBack 2 2 = [(P0[2](2), {1, 3} 2), (P0[1](2), {3, 2} 1), (P0[3](2), {2, 1} 3)]
WalkBack 4 2 = [(P0[4](2), {(start), (end)} 4)]
Chains = Ok([ChainHead { first: P0[1](2), is_cyclic: true }, ChainHead { first: P0[4](2), is_cyclic: false }])
AlongBack 2 2 9 2 = Some([P0[2](2), P0[1](2), P0[3](2)])
AlongBack 4 2 9 2 = Some([P0[4](2)])
# an advancer backwards, while the end is removed
Linked 4 1 2 3 4 = true
AlongBack 2 2 4 2 = Some([P0[2](2), P0[1](2), P0[3](2)])
# its start is removed
Linked 4 1 2 3 4 = true
AlongBack 2 2 2 2 = Some([P0[2](2), P0[1](2)])
# the link that is next is removed
Linked 4 1 2 3 4 = true
AlongBack 3 2 2 2 = Some([P0[3](2)])
AlongBack 2 2 9 2 = None
# a ring of one, and one of two
Linked 4 1 1 0 2 3 2 = true
Walk 1 2 = [(P0[1](2), {1, 1} 1)]
Walk 3 2 = [(P0[3](2), {2, 2} 3), (P0[2](2), {3, 3} 2)]
WalkBack 1 2 = [(P0[1](2), {1, 1} 1)]
WalkBack 3 2 = [(P0[3](2), {2, 2} 3), (P0[2](2), {3, 3} 2)]
Starts = [P0[4](2)]
Chains = Ok([ChainHead { first: P0[1](2), is_cyclic: true }, ChainHead { first: P0[2](2), is_cyclic: true }, ChainHead { first: P0[4](2), is_cyclic: false }])
# a linear chain from its greatest index to its least, a ring, and a hole
Linked 5 5 1 0 4 2 4 = true
Remove 3 2 = Success(3)
Chains = Ok([ChainHead { first: P0[5](2), is_cyclic: false }, ChainHead { first: P0[2](2), is_cyclic: true }])
";

// Loops over all links, and values by valid pointers and indexes.
const LOOPS: &str = "\
# values, of a chain of two whose second is gone and a lone link
Linked 3 1 2 = true
Remove 2 2 = Success(2)
Values = [(P0[1](2), 1), (P0[3](2), 3)]
# links, of three in a row whose second is gone
Linked 3 1 2 3 = true
Remove 2 2 = Success(2)
Links = [(P0[1](2), {(start), 3} 1), (P0[3](2), {1, (end)} 3)]
LinksByReference = [(P0[1](2), {(start), 3} 1), (P0[3](2), {1, (end)} 3)]
Indexes = Ok([Inx32 { number: 1 }, Inx32 { number: 3 }])
LinksUsedUp = [(P0[1](2), {(start), 3} 1), (P0[3](2), {1, (end)} 3)]
IsEmpty = true
# values of valid pointers and indexes
Linked 3 1 2 3 = true
Value 2 2 = Some((2, 2))
WriteValue 2 2 20 = true
Value 3 2 = Some((3, 3))
WriteValueInx 3 30 = true
Debug = {P0[1](2): {(start), 2} 1, P0[2](2): {1, 3} 20, P0[3](2): {2, (end)} 30}
";

// Drains of a chain, whole or up to a first link.
const CHAIN_DRAINS: &str = "\
# a linear chain drained from its middle
Linked 3 1 2 3 = true
DrainChain 2 2 = [Success((P0[2](2), {1, 3} 2)), Success((P0[3](2), {1, (end)} 3)), Success((P0[1](2), {(start), (end)} 1))]
IsEmpty = true
Counter = Some(5)
# a cycle drained
Linked 3 1 2 3 1 = true
DrainChain 1 2 = [Success((P0[1](2), {3, 2} 1)), Success((P0[2](2), {3, 3} 2)), Success((P0[3](2), {3, 3} 3))]
IsEmpty = true
Counter = Some(5)
# no walk and no drain of a stale pointer
InsertMany 1 = 1
Remove 1 2 = Success(1)
Starts = []
Chains = Ok([])
Insert Disconnected 2 = Ok(P0[1](3))
Walk 1 2 = None
WalkBack 1 2 = None
DrainChain 1 2 = None
DrainTaking 1 2 1 = None
Debug = {P0[1](3): {(start), (end)} 2}
# a dropped drain takes the rest
Linked 5 1 2 3 4 = true
DrainChainOne 2 2 = Some(Success((P0[2](2), {1, 3} 2)))
Counter = Some(6)
Debug = {P0[5](2): {(start), (end)} 5}
# a forgotten drain leaves the rest
Linked 5 1 2 3 4 = true
ForgetChainDrain 2 2 = Some(Success((P0[2](2), {1, 3} 2)))
Debug = {P0[1](2): {(start), 3} 1, P0[3](2): {1, 4} 3, P0[4](2): {3, (end)} 4, P0[5](2): {(start), (end)} 5}
";

// Drains of all links.
const DRAINS: &str = "\
# all links drained by ascending index
Linked 4 4 1 3 = true
Remove 2 2 = Success(2)
Drain = [Success((P0[1](2), 1)), Success((P0[3](2), 3)), Success((P0[4](2), 4))]
IsEmpty = true
Counter = Some(6)
# a dropped drain of all takes the rest
Linked 5 1 2 3 4 = true
DrainOne = Some(Success((P0[1](2), 1)))
IsEmpty = true
Slots = 5
Insert Disconnected 6 = Ok(P0[5](7))
DrainOne = Some(Success((P0[5](7), 6)))
IsEmpty = true
# a forgotten drain of all leaves whole chains
Linked 5 1 2 3 4 = true
ForgetDrain = Some(Success((P0[1](2), 1)))
Debug = {P0[2](2): {(start), 3} 2, P0[3](2): {2, 4} 3, P0[4](2): {3, (end)} 4, P0[5](2): {(start), (end)} 5}
# drains report an overflow
Linked 3 1 2 = true
SetGeneration 4294967295 = ()
DrainOne = Some(GenerationOverflow((P0[1](2), 1)))
Counter = Some(4)
RemoveAll = ()
IsEmpty = true
";

// Vacant entries for a lone link, and for links between two others after removals.
const VACANT_ENTRIES: &str = "\
# an insertion position that is dropped is found again, and a link is inserted there
DropEntry Disconnected = Ok(P0[1](2))
Len = 0
Counter = Some(2)
Get 1 2 = None
InsertByEntry Disconnected 7 = Ok(P0[1](2))
Len = 1
Counter = Some(2)
Debug = {P0[1](2): {(start), (end)} 7}
# a place that is forgotten leaves what one that is dropped leaves
ForgetEntry Disconnected = None
Len = 0
Counter = Some(2)
Get 1 2 = None
Insert Disconnected 7 = Ok(P0[1](2))
# insertions between two links
Linked 3 1 2 = true
InsertIfAllowed NextTo 1 2 4 = Some(Ok(P0[4](2)))
Remove 3 2 = Success(3)
EntryRefusals NextTo 1 2 = [None, None]
InsertByEntry NextTo 1 2 5 = Ok(P0[3](3))
Debug = {P0[1](2): {(start), 3} 1, P0[2](2): {4, (end)} 2, P0[3](3): {1, 4} 5, P0[4](2): {3, 2} 4}
Remove 3 3 = Success(5)
InsertByAnyEntry NextTo 4 2 6 = Some(Ok(P0[3](4)))
Debug = {P0[1](2): {(start), 4} 1, P0[2](2): {3, (end)} 2, P0[3](4): {4, 2} 6, P0[4](2): {1, 3} 4}
";

// Canonical compressions, which arrange chains in place one after another.
const LAYOUTS: &str = "\
# a chain of 2, 4 and 1, of which 1 was inserted last, and a lone link 3
Linked 4 1 3 0 2 4 = true
Remove 1 2 = Success(1)
Insert ChainEnd 4 2 5 = Ok(P0[1](3))
Placed 0 = (Success(()), 4)
Debug = {P0[1](4): {(start), 2} 2, P0[2](4): {1, 3} 4, P0[3](4): {2, (end)} 5, P0[4](4): {(start), (end)} 3}
Counter = Some(4)
# the moves of the same chains
Linked 4 1 3 0 2 4 = true
Remove 1 2 = Success(1)
Insert ChainEnd 4 2 5 = Ok(P0[1](3))
MovesVisited 0 = (Success(()), [(P0[2](2), P0[1](4)), (P0[4](2), P0[2](4)), (P0[1](3), P0[3](4)), (P0[3](2), P0[4](4))])
# a linear chain and a cycle
Linked 4 1 4 0 2 3 2 = true
MovesListed 0 = Ok((Success(()), [(P0[1](2), P0[1](3)), (P0[4](2), P0[2](3)), (P0[2](2), P0[3](3)), (P0[3](2), P0[4](3))]))
# a chain whose start is not its least index, and a lone link
Linked 3 3 1 = true
MovesVisited 0 = (Success(()), [(P0[3](2), P0[1](3)), (P0[1](2), P0[2](3)), (P0[2](2), P0[3](3))])
# chains in order
Linked 3 1 2 = true
MovesVisited 0 = (Success(()), [(P0[1](2), P0[1](3)), (P0[2](2), P0[2](3)), (P0[3](2), P0[3](3))])
MovesListed 1 = Ok((Success(()), [(P0[1](3), P0[1](2)), (P0[2](3), P0[2](2)), (P0[3](3), P0[3](2))]))
# an empty arena
Counted 0 = (Success(()), Work { placed: 0, touched: 0 })
Canonical 0 = Success(())
IsEmpty = true
Counter = Some(2)
";

pub(super) const TABLES: [&str; 6] = [WALKS, LOOPS, CHAIN_DRAINS, DRAINS, VACANT_ENTRIES, LAYOUTS];

// A clone and a copy of a chain of three without the second.
pub(super) const COPIES: &str = "\
# a row of three without the second
Linked 3 1 2 3 = true
Remove 2 2 = Success(2)
Clone = (Ok(P0[2](3)), {P0[1](2): {(start), 3} 1, P0[2](3): {(start), (end)} 9, P0[3](2): {1, (end)} 3}, None)
Debug = {P0[1](2): {(start), 3} 1, P0[3](2): {1, (end)} 3}
Insert Disconnected 9 = Ok(P0[2](3))
# over two rings of one
Linked 2 1 1 0 2 2 = true
CopyOver 3 = (Ok(()), [(P0[1](2), {(start), 3} 1), (P0[3](2), {1, (end)} 3)])
Debug = {P0[1](2): {(start), 3} 11, P0[3](2): {1, (end)} 23}
Insert Disconnected 9 = Ok(P0[2](3))
";

// A clone does not take over a maximum of two, a copy of three slots is refused, and two links fill
// the arena.
pub(super) const FULL: &str = "\
Insert Disconnected 1 = Ok(P0[1](2))
Maximum = Some(2)
Clone = (Ok(P0[2](2)), {P0[1](2): {(start), (end)} 1, P0[2](2): {(start), (end)} 9}, None)
CopyOver 3 = (Err(BeyondMaxCapacity), [])
Debug = {P0[1](2): {(start), (end)} 1}
Maximum = Some(2)
Insert Disconnected 2 = Ok(P0[2](2))
Insert Disconnected 3 = Err(BeyondMaxCapacity)
InsertIfAllowed Disconnected 3 = Some(Err(BeyondMaxCapacity))
InsertByAnyEntry Disconnected 3 = Some(Err(BeyondMaxCapacity))
InsertWithin Disconnected 3 = Err(NotWithinCapacity)
Insert ChainEnd 9 9 3 = Err(FailedLinkRequirement)
InsertWithin ChainEnd 9 9 3 = Err(FailedLinkRequirement)
Reserve 3 = Err(BeyondMaxCapacity)
EntryRefusals Disconnected = [Some(BeyondMaxCapacity), Some(NotWithinCapacity)]
EntryRefusals ChainEnd 9 9 = [Some(FailedLinkRequirement), Some(FailedLinkRequirement)]
";

// It is still full after refused calls.
pub(super) const FULL_STILL: &str = "\
Capacities = (2, 2)
Maximum = Some(2)
";

// Growths within a maximum of eight: to 1, 2 and 4 for a link, and to 8 for a copy.
pub(super) const GROWN: &str = "\
InsertIfAllowed Disconnected 1 = Some(Ok(P0[1](2)))
InsertByAnyEntry Disconnected 2 = Some(Ok(P0[2](2)))
InsertByEntry Disconnected 3 = Ok(P0[3](2))
CopyOver 5 = (Ok(()), [(P0[1](2), {(start), 3} 1), (P0[3](2), {1, 4} 3), (P0[4](2), {3, 5} 4), (P0[5](2), {4, (end)} 5)])
Counter = Some(3)
Capacities = (4, 8)
Maximum = Some(8)
";
