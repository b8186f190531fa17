//! Rows of plain arenas over any stack, of pointers with an 8-bit index and an 8-bit generation.
//!
//! A line `# ..` makes a new arena, any other is a call and the text of its result. A pointer is
//! written as its index with its generation in parentheses, both hexadecimal.

// Each call.
pub(super) const EACH_CALL: &str = "\
# minimum capacities, up to the greatest index
WithMinCapacity 255 = Ok((true, true))
WithMinCapacity 256 = Err(AllocError)
# a new arena
IsEmpty = true
Reserve 4 = Ok(())
HasCapacity 4 = true
Maximum = None
# each call of the arena and of the trait
Reserve 3 = Ok(())
Insert 10 = Ok(1(2))
InsertWithin 20 = Ok(2(2))
InsertByEntry 30 = Ok(3(2))
Get 2 2 = Some(20)
Get 3 2 = Some(30)
Slots = 3
Entries = [(1(2), 10), (2(2), 20), (3(2), 30)]
Generation = 2
IncGeneration = Success(())
Generation = 3
SetGeneration 2 = ()
Generation = 2
HasCapacity 3 = true
Ends = (Some(1(2)), Some(3(2)))
Len = 3
IsEmpty = false
Counter = Some(2)
Contains 1 2 = true
GetInx 1 = Some((2, 10))
Write 1 2 11 = Some(10)
WriteInx 3 31 = Some(30)
Entries = [(1(2), 11), (2(2), 20), (3(2), 31)]
Advance 3 = [(1, 2), (2, 2), (3, 2), (0, 0), (0, 0)]
AdvanceFrom 3 1 = [(3, 2), (2, 2), (0, 0), (0, 0), (0, 0)]
AdvanceEmpty = None
Invalidate 1 2 = Success(1(3))
Contains 1 3 = true
Contains 1 2 = false
Entries = [(1(3), 11), (2(2), 20), (3(2), 31)]
Remove 1 2 = InvalidPtr
Remove 1 3 = Success(11)
RemoveInx 3 = Success((2, 31))
RemoveInx 3 = InvalidPtr
GetInx 2 = Some((2, 20))
GetInx 3 = None
GetInx 4 = None
Len = 1
Entries = [(2(2), 20)]
ClearAndReserve = (Success(()), true)
Len = 0
Counter = Some(6)
Insert 5 = Ok(1(6))
Drain = [(1(6), 5)]
# the insertions of the trait, and a replaced value
WithinByTrait 10 = Err(NotWithinCapacityError)
InsertByTrait 10 = Ok(1(2))
Reserve 2 = Ok(())
WithinByTrait 20 = Ok(2(2))
Remove 1 2 = Success(10)
InsertByTrait 30 = Ok(1(3))
Replace 1 3 31 = Some(30)
Replace 1 2 32 = None
Entries = [(1(3), 31), (2(2), 20)]
InsertForwarded 7 = (Err(NotWithinCapacityError), Ok(1(2)), 1)
";

// Which index and generation comes next, up to the greatest of each.
pub(super) const NEXT_POINTERS: &str = "\
# last freed first used
Insert 10 = Ok(1(2))
Insert 20 = Ok(2(2))
Insert 30 = Ok(3(2))
Remove 2 2 = Success(20)
Remove 1 2 = Success(10)
Insert 40 = Ok(1(4))
Insert 50 = Ok(2(4))
Insert 60 = Ok(4(4))
Get 3 2 = Some(30)
Get 1 2 = None
Entries = [(1(4), 40), (2(4), 50), (3(2), 30), (4(4), 60)]
# advancers both ways
Insert 10 = Ok(1(2))
Insert 20 = Ok(2(2))
Insert 30 = Ok(3(2))
Remove 2 2 = Success(20)
AdvanceFrom 2 0 = [(3, 2), (0, 0), (0, 0), (0, 0), (0, 0)]
AdvanceFrom 2 1 = [(1, 2), (0, 0), (0, 0), (0, 0), (0, 0)]
AdvanceFrom 3 1 = [(3, 2), (1, 2), (0, 0), (0, 0), (0, 0)]
Advance 5 = [(1, 2), (3, 2), (0, 0), (0, 0), (0, 0)]
# all entries by ascending index
InsertMany 5 = 5
Ends = (Some(1(2)), Some(5(2)))
Remove 1 2 = Success(1)
Drain = [(2(2), 2), (3(2), 3), (4(2), 4), (5(2), 5)]
IsEmpty = true
# an index type of 255
InsertMany 255 = 255
Len = 255
Capacities = (255, 255)
Insert 255 = Err(AllocError)
InsertByTrait 255 = Err(AllocError)
InsertWithin 255 = Err(NotWithinCapacityError)
InsertByEntry 255 = Err(NotWithinCapacityError)
Reserve 256 = Err(AllocError)
Len = 255
# capacity up to the greatest index
Reserve 255 = Ok(())
Capacities = (0, 255)
Drain = []
Insert 10 = Ok(1(2))
Reserve 255 = Ok(())
Capacities = (1, 255)
Drain = [(1(2), 10)]
Reserve 200 = Ok(())
Reserve 201 = Ok(())
HasCapacity 201 = true
# a generation type of 255
Insert 7 = Ok(1(2))
SetGeneration 255 = ()
Remove 1 2 = GenerationOverflow(7)
Generation = 2
Remove 1 2 = InvalidPtr
SetGeneration 255 = ()
Insert 8 = Ok(1(ff))
RemoveInx 1 = GenerationOverflow((255, 8))
Generation = 2
ClearAndReserve = (Success(()), true)
Generation = 2
# a dropped place changes nothing
Reserve 2 = Ok(())
DropEntry = Ok(1(2))
DropEntry = Ok(1(2))
Len = 0
Contains 1 2 = false
InsertWithin 7 = Ok(1(2))
";

// What compactors move, count and leave. Reading a free slot counts, too. A forgotten one leaves
// no entries.
pub(super) const COMPACTORS: &str = "\
# the compactor closes a hole
Insert 10 = Ok(1(2))
Insert 20 = Ok(2(2))
Insert 30 = Ok(3(2))
Remove 1 2 = Success(10)
Compact 3 2 1 3 = ((3, Some(30)), Work { placed: 1, touched: 1 })
Entries = [(1(3), 30), (2(2), 20)]
Get 1 3 = Some(30)
Get 2 2 = Some(20)
Compact 3 2 1 3 = ((2, None), Work { placed: 0, touched: 1 })
Insert 40 = Ok(3(3))
# a compactor is dropped
Insert 10 = Ok(1(2))
Insert 20 = Ok(2(2))
Insert 30 = Ok(3(2))
Remove 1 2 = Success(10)
Remove 2 2 = Success(20)
DropCompactor = ()
Get 3 2 = Some(30)
Insert 40 = Ok(1(4))
Insert 50 = Ok(2(4))
# a compactor is forgotten
Insert 10 = Ok(1(2))
Insert 20 = Ok(2(2))
Insert 30 = Ok(3(2))
Remove 1 2 = Success(10)
Remove 2 2 = Success(20)
ForgetCompactor = ()
Len = 0
Generation = 4
Insert 60 = Ok(1(4))
# a value written through a compactor
Insert 10 = Ok(1(2))
CompactWriting 1 2 2 9 11 = ((1, Some(11)), Work { placed: 0, touched: 2 })
Get 1 2 = Some(11)
AdvanceEmpty = None
";

// Compressions, of which `CompressWith` adds ten times the number of the closure's call to each
// value. The old pointers are invalid, and the next index follows the entries.
pub(super) const COMPRESSIONS: &str = "\
# a hole is closed
Insert 10 = Ok(1(2))
Insert 20 = Ok(2(2))
Insert 30 = Ok(3(2))
Remove 2 2 = Success(20)
CompressWith 0 = (Success(()), [(1(2), 10, 1(4)), (3(2), 30, 2(4))])
Entries = [(1(4), 20), (2(4), 50)]
Slots = 2
Get 1 2 = None
Insert 40 = Ok(3(4))
# a reset begins the generations anew
Insert 10 = Ok(1(2))
Insert 20 = Ok(2(2))
Remove 1 2 = Success(10)
Insert 30 = Ok(1(3))
Invalidate 2 2 = Success(2(4))
CompressWith 1 = (Success(()), [(1(3), 30, 1(2)), (2(4), 20, 2(2))])
Generation = 2
Entries = [(1(2), 40), (2(2), 40)]
SetGeneration 255 = ()
Compress 1 = Success(())
Generation = 2
Entries = [(1(2), 40), (2(2), 40)]
# an empty arena is compressed
SetGeneration 255 = ()
Compress 0 = Success(())
Generation = 255
CompressWith 0 = (Success(()), [])
Generation = 255
Compress 1 = Success(())
Generation = 2
Insert 10 = Ok(1(2))
Remove 1 2 = Success(10)
Compress 0 = Success(())
Generation = 3
Slots = 0
# the greatest generation is compressed
SetGeneration 254 = ()
Insert 10 = Ok(1(fe))
Insert 20 = Ok(2(fe))
Remove 1 254 = Success(10)
Compress 0 = GenerationOverflow(())
Generation = 2
Entries = [(1(2), 20)]
# each value is seen and written once
InsertMany 6 = 6
Remove 4 2 = Success(4)
Remove 1 2 = Success(1)
Remove 3 2 = Success(3)
CompressWith 0 = (Success(()), [(2(2), 2, 1(6)), (5(2), 5, 2(6)), (6(2), 6, 3(6))])
Entries = [(1(6), 12), (2(6), 25), (3(6), 36)]
InsertMany 300 = 252
Remove 1 6 = Success(12)
Compress 0 = Success(())
Len = 254
Get 1 8 = Some(25)
Get 254 8 = Some(252)
Insert 7 = Ok(ff(8))
";

// A copy has the indexes, generations and freed list of its source, and the old entries are gone.
pub(super) const COPY: &str = "\
# a copy keeps the freed list
InsertMany 9 = 9
CopyHole = (Ok(()), 2, 2)
Get 1 2 = Some(11)
Get 3 2 = Some(32)
Get 2 2 = None
Insert 7 = Ok(2(3))
";

// Pointers that are indexes alone: an index is used again under the same pointer, and no removal
// overflows.
pub(super) const REUSED: &str = "\
# pointers without generations
Insert 6 = Ok(1)
Remove 1 0 = Success(6)
Insert 7 = Ok(1)
Remove 1 0 = Success(7)
InsertMany 255 = 255
Remove 9 0 = Success(9)
Insert 8 = Ok(9)
ClearAndReserve = (Success(()), true)
InsertMany 5 = 5
Drain = [(1, 1), (2, 2), (3, 3), (4, 4), (5, 5)]
IsEmpty = true
";

// Two slots at most, which are used up.
pub(super) const WITHIN_TWO: &str = "\
Reserve 1 = Ok(())
Capacities = (0, 1)
Insert 1 = Ok(1(2))
Insert 2 = Ok(2(2))
Insert 3 = Err(BeyondMaxCapacity)
InsertWithin 3 = Err(NotWithinCapacityError)
InsertByTrait 3 = Err(BeyondMaxCapacity)
";

// Under the same maximum, a copy of three slots is refused.
pub(super) const COPIED_BEYOND: &str = "\
Insert 5 = Ok(1(2))
CopyHole = (Err(BeyondMaxCapacity), 1, 0)
Get 1 2 = Some(5)
Insert 6 = Ok(2(2))
";

// A copy of three slots grows an arena to a maximum of three.
pub(super) const COPIED_WITHIN: &str = "\
CopyHole = (Ok(()), 2, 2)
Insert 7 = Ok(2(3))
Capacities = (3, 3)
Maximum = Some(3)
";

// What the two tables for two slots leave.
pub(super) const USED_UP: &str = "\
Len = 2
Capacities = (2, 2)
Maximum = Some(2)
";

// The first growth is refused, then every other one. A refused call has requested one. Two of the
// three insertions into the source of the copy are refused, too.
pub(super) const EVERY_OTHER: &str = "\
# every other request is refused
Insert 1 = Err(AllocError)
Insert 1 = Ok(1(2))
Insert 2 = Err(AllocError)
Insert 2 = Ok(2(2))
Reserve 3 = Err(AllocError)
Reserve 3 = Ok(())
CopyHole = (Ok(()), 1, 1)
Reserve 9 = Err(AllocError)
Capacities = (1, 4)
WithMinCapacity 3 = Err(AllocError)
# a refusal beside free slots keeps them and their order
InsertMany 4 = 2
Insert 5 = Err(AllocError)
Insert 5 = Ok(3(2))
Insert 6 = Ok(4(2))
Remove 1 2 = Success(2)
Remove 3 2 = Success(5)
Reserve 9 = Err(AllocError)
Capacities = (2, 4)
Slots = 4
Entries = [(2(2), 4), (4(2), 6)]
Insert 7 = Ok(3(4))
Insert 8 = Ok(1(4))
Counter = Some(4)
";
