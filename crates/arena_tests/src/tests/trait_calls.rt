//! Rows that any arena of links satisfies by its traits alone.
//!
//! A line `# ..` makes a new arena, any other is a call and the text of its result. `All` lists
//! each link: pointer, value, and the pointers before and after it.

pub(super) const ROWS: &str = "\
# What connects and what is refused.
# two lone links are connected both ways
InsertMany 2 = 2
All = [((1, 2), 1, (0, 0), (0, 0)), ((2, 2), 2, (0, 0), (0, 0))]
Connect 1 2 2 2 = true
All = [((1, 2), 1, (0, 0), (2, 2)), ((2, 2), 2, (1, 2), (0, 0))]
# 1 has a next link, and 2 a previous one
Linked 3 1 2 = true
Connect 1 2 3 2 = false
Connect 3 2 2 2 = false
All = [((1, 2), 1, (0, 0), (2, 2)), ((2, 2), 2, (1, 2), (0, 0)), ((3, 2), 3, (0, 0), (0, 0))]
# a link connected to itself, and a ring of two beside it
Linked 3 1 1 = true
Connect 1 2 1 2 = false
Connect 2 2 3 2 = true
Connect 3 2 2 2 = true
All = [((1, 2), 1, (1, 2), (1, 2)), ((2, 2), 2, (3, 2), (3, 2)), ((3, 2), 3, (2, 2), (2, 2))]
# an index beyond the last
InsertMany 1 = 1
Contains 2 2 = false
Link 2 2 = None
LinkNoGen 2 2 = false
Connect 1 2 2 2 = false
RemoveLink 2 2 = InvalidPtr
All = [((1, 2), 1, (0, 0), (0, 0))]
# What removals return and leave.
# a list of three
Insert Disconnected 10 = Ok(P0[1](2))
Insert ChainEnd 1 2 20 = Ok(P0[2](2))
Insert ChainEnd 2 2 30 = Ok(P0[3](2))
All = [((1, 2), 10, (0, 0), (2, 2)), ((2, 2), 20, (1, 2), (3, 2)), ((3, 2), 30, (2, 2), (0, 0))]
Insert ChainEnd 1 2 40 = Err(FailedLinkRequirement)
Len = 3
RemoveLink 2 2 = Success((1, 3, 20))
Insert ChainEnd 2 2 50 = Err(FailedLinkRequirement)
Insert ChainEnd 3 2 60 = Ok(P0[2](3))
All = [((1, 2), 10, (0, 0), (3, 2)), ((2, 3), 60, (3, 2), (0, 0)), ((3, 2), 30, (1, 2), (2, 3))]
Len = 3
GetInx 1 = Some((2, 10))
LinkNoGenInx 1 = Some((2, (0, 3, 10)))
GetInx 4 = None
LinkNoGenInx 4 = None
# the first link of a cycle of two is removed: the other one is its own neighbor
Linked 2 1 2 1 = true
RemoveLink 1 2 = Success((2, 2, 1))
Contains 1 2 = false
All = [((2, 2), 2, (2, 2), (2, 2))]
# the second is removed, and the freed index is reused with the new counter
Linked 2 1 2 1 = true
Remove 2 2 = Success(2)
All = [((1, 2), 1, (1, 2), (1, 2))]
Insert Disconnected 9 = Ok(P0[2](3))
All = [((1, 2), 1, (1, 2), (1, 2)), ((2, 3), 9, (0, 0), (0, 0))]
# of a list of four, the second, the start, the end and the rest are removed
Linked 4 1 2 3 4 = true
RemoveLink 2 2 = Success((1, 3, 2))
RemoveLink 1 2 = Success((0, 3, 1))
RemoveLink 4 2 = Success((3, 0, 4))
All = [((3, 2), 3, (0, 0), (0, 0))]
TakeNext 3 = 0
IsEmpty = true
# a ring of three stays a ring to the end
Linked 3 1 2 3 1 = true
TakeNext 2 = 3
All = [((1, 2), 1, (3, 2), (3, 2)), ((3, 2), 3, (1, 2), (1, 2))]
TakeNext 3 = 1
All = [((1, 2), 1, (1, 2), (1, 2))]
RemoveInx 1 = Success((2, 1))
IsEmpty = true
# a link that gets a new generation stays in its chain
Linked 2 1 2 = true
Invalidate 1 2 = Success(P0[1](3))
Contains 1 2 = false
Counter = Some(3)
Neighbors 1 2 2 2 = false
Neighbors 1 3 2 2 = true
NeighborsInx 1 2 = true
All = [((1, 3), 1, (0, 0), (2, 2)), ((2, 2), 2, (1, 3), (0, 0))]
# The kinds of insertion.
# a lone link: nothing is inserted between it and itself; a bridge makes a cycle
InsertMany 1 = 1
CanInsert AtInterlink 1 2 1 2 = false
Insert AtInterlink 1 2 1 2 0 = Err(FailedLinkRequirement)
InsertWithin AtInterlink 1 2 1 2 0 = Err(FailedLinkRequirement)
CanInsert Bridge 1 2 1 2 = true
Insert Bridge 1 2 1 2 2 = Ok(P0[2](2))
Insert PrevToInx 1 3 = Ok(P0[3](2))
Insert AtInterlinkInx 3 1 4 = Ok(P0[4](2))
All = [((1, 2), 1, (4, 2), (2, 2)), ((2, 2), 2, (1, 2), (3, 2)), ((3, 2), 3, (2, 2), (4, 2)), ((4, 2), 4, (3, 2), (1, 2))]
# a bridge goes from the end of a chain to the start of another, and not the other way
Linked 4 1 2 0 3 4 = true
CanInsert Bridge 3 2 2 2 = false
Insert Bridge 3 2 2 2 0 = Err(FailedLinkRequirement)
CanInsert Bridge 2 2 3 2 = true
Insert Bridge 2 2 3 2 5 = Ok(P0[5](2))
All = [((1, 2), 1, (0, 0), (2, 2)), ((2, 2), 2, (1, 2), (5, 2)), ((3, 2), 3, (5, 2), (4, 2)), ((4, 2), 4, (3, 2), (0, 0)), ((5, 2), 5, (2, 2), (3, 2))]
Insert ChainStartInx 1 6 = Ok(P0[6](2))
Insert PrevTo 3 2 7 = Ok(P0[7](2))
All = [((1, 2), 1, (6, 2), (2, 2)), ((2, 2), 2, (1, 2), (5, 2)), ((3, 2), 3, (7, 2), (4, 2)), ((4, 2), 4, (3, 2), (0, 0)), ((5, 2), 5, (2, 2), (7, 2)), ((6, 2), 6, (0, 0), (1, 2)), ((7, 2), 7, (5, 2), (3, 2))]
# a ring of one grows to two, and has no end and no start
Insert SingleLinkCyclic 1 = Ok(P0[1](2))
Insert NextTo 1 2 2 = Ok(P0[2](2))
CanInsert ChainStartInx 1 = false
Insert ChainStartInx 1 0 = Err(FailedLinkRequirement)
InsertWithin ChainStartInx 1 0 = Err(FailedLinkRequirement)
CanInsert ChainEnd 1 2 = false
Insert ChainEnd 1 2 0 = Err(FailedLinkRequirement)
InsertWithin ChainEnd 1 2 0 = Err(FailedLinkRequirement)
All = [((1, 2), 1, (2, 2), (2, 2)), ((2, 2), 2, (1, 2), (1, 2))]
# two connected links: the first is no end; links are inserted at the end and before it
Linked 2 1 2 = true
Neighbors 1 2 2 2 = true
NeighborsInx 1 2 = true
Neighbors 2 2 1 2 = false
NeighborsInx 2 1 = false
CanInsert ChainEnd 1 2 = false
Insert ChainEnd 1 2 0 = Err(FailedLinkRequirement)
InsertWithin ChainEnd 1 2 0 = Err(FailedLinkRequirement)
Insert ChainEnd 2 2 3 = Ok(P0[3](2))
Insert AtInterlink 2 2 3 2 4 = Ok(P0[4](2))
Neighbors 2 2 3 2 = false
NeighborsInx 2 3 = false
Neighbors 2 2 4 2 = true
NeighborsInx 2 4 = true
Neighbors 4 2 3 2 = true
NeighborsInx 4 3 = true
# a stale pointer names no link, its index does
InsertMany 1 = 1
Remove 1 2 = Success(1)
Insert Disconnected 1 = Ok(P0[1](3))
CanInsert NextTo 1 2 = false
Insert NextTo 1 2 0 = Err(FailedLinkRequirement)
InsertWithin NextTo 1 2 0 = Err(FailedLinkRequirement)
Insert ChainStart 1 3 2 = Ok(P0[2](3))
Insert ChainEndInx 1 3 = Ok(P0[3](3))
Insert BridgeInx 3 2 4 = Ok(P0[4](3))
NeighborsInx 3 4 = true
NeighborsInx 4 2 = true
# every kind and call refuses a stale pointer in either argument; its index still names a link
InsertMany 2 = 2
Remove 1 2 = Success(1)
Insert Disconnected 3 = Ok(P0[1](3))
Insert ChainEnd 1 2 0 = Err(FailedLinkRequirement)
Insert ChainStart 1 2 0 = Err(FailedLinkRequirement)
Insert NextTo 1 2 0 = Err(FailedLinkRequirement)
Insert PrevTo 1 2 0 = Err(FailedLinkRequirement)
Insert Bridge 1 2 2 2 0 = Err(FailedLinkRequirement)
Insert Bridge 2 2 1 2 0 = Err(FailedLinkRequirement)
Connect 1 2 2 2 = false
Connect 2 2 1 2 = false
Connect 1 3 2 2 = true
Connect 2 2 1 3 = true
Insert AtInterlink 1 2 2 2 0 = Err(FailedLinkRequirement)
Insert AtInterlink 2 2 1 2 0 = Err(FailedLinkRequirement)
InsertWithin AtInterlink 2 2 1 2 0 = Err(FailedLinkRequirement)
BreakPrev 1 2 = false
BreakNext 1 2 = false
Exchange 1 2 2 2 = false
Exchange 2 2 1 2 = false
Neighbors 1 2 2 2 = false
Neighbors 2 2 1 2 = false
Contains 1 2 = false
Get 1 2 = None
Write 1 2 0 = None
Link 1 2 = None
LinkNoGen 1 2 = false
Along 1 2 = None
RemoveLink 1 2 = InvalidPtr
Remove 1 2 = InvalidPtr
Invalidate 1 2 = InvalidPtr
Insert NextToInx 1 4 = Ok(P0[3](3))
All = [((1, 3), 3, (2, 2), (3, 3)), ((2, 2), 2, (3, 3), (1, 3)), ((3, 3), 4, (1, 3), (2, 2))]
# Links disconnected, and next links exchanged twice.
# a lone link is connected to itself, disconnected and connected again; one is inserted between
Linked 1 1 1 = true
BreakNext 1 2 = true
All = [((1, 2), 1, (0, 0), (0, 0))]
BreakNext 1 2 = false
BreakPrev 1 2 = false
Connect 1 2 1 2 = true
Insert AtInterlink 1 2 1 2 2 = Ok(P0[2](2))
All = [((1, 2), 1, (2, 2), (2, 2)), ((2, 2), 2, (1, 2), (1, 2))]
# a ring of three is disconnected before 2, and then after 3
Linked 3 1 2 3 1 = true
BreakPrev 2 2 = true
All = [((1, 2), 1, (3, 2), (0, 0)), ((2, 2), 2, (0, 0), (3, 2)), ((3, 2), 3, (2, 2), (1, 2))]
BreakNext 3 2 = true
All = [((1, 2), 1, (0, 0), (0, 0)), ((2, 2), 2, (0, 0), (3, 2)), ((3, 2), 3, (2, 2), (0, 0))]
# a cycle of six becomes two of three, and one again
Linked 6 1 2 3 4 5 6 1 = true
Exchange 2 2 5 2 = true
All = [((1, 2), 1, (6, 2), (2, 2)), ((2, 2), 2, (1, 2), (6, 2)), ((3, 2), 3, (5, 2), (4, 2)), ((4, 2), 4, (3, 2), (5, 2)), ((5, 2), 5, (4, 2), (3, 2)), ((6, 2), 6, (2, 2), (1, 2))]
Exchange 2 2 2 2 = true
All = [((1, 2), 1, (6, 2), (2, 2)), ((2, 2), 2, (1, 2), (6, 2)), ((3, 2), 3, (5, 2), (4, 2)), ((4, 2), 4, (3, 2), (5, 2)), ((5, 2), 5, (4, 2), (3, 2)), ((6, 2), 6, (2, 2), (1, 2))]
Exchange 5 2 2 2 = true
Neighbors 2 2 3 2 = true
All = [((1, 2), 1, (6, 2), (2, 2)), ((2, 2), 2, (1, 2), (3, 2)), ((3, 2), 3, (2, 2), (4, 2)), ((4, 2), 4, (3, 2), (5, 2)), ((5, 2), 5, (4, 2), (6, 2)), ((6, 2), 6, (5, 2), (1, 2))]
# a cycle of two is spliced into a linear chain, and out again
Linked 5 1 2 3 0 4 5 4 = true
Exchange 1 2 4 2 = true
All = [((1, 2), 1, (0, 0), (5, 2)), ((2, 2), 2, (4, 2), (3, 2)), ((3, 2), 3, (2, 2), (0, 0)), ((4, 2), 4, (5, 2), (2, 2)), ((5, 2), 5, (1, 2), (4, 2))]
Exchange 4 2 1 2 = true
All = [((1, 2), 1, (0, 0), (2, 2)), ((2, 2), 2, (1, 2), (3, 2)), ((3, 2), 3, (2, 2), (0, 0)), ((4, 2), 4, (5, 2), (5, 2)), ((5, 2), 5, (4, 2), (4, 2))]
# a link is spliced out of a linear chain, into its own cycle, and back
Linked 3 1 2 3 = true
Exchange 1 2 2 2 = true
All = [((1, 2), 1, (0, 0), (3, 2)), ((2, 2), 2, (2, 2), (2, 2)), ((3, 2), 3, (1, 2), (0, 0))]
Exchange 2 2 1 2 = true
All = [((1, 2), 1, (0, 0), (2, 2)), ((2, 2), 2, (1, 2), (3, 2)), ((3, 2), 3, (2, 2), (0, 0))]
# Runs of links moved after another link.
# onward and back in one chain, where it already is, and nowhere
Linked 5 1 2 3 4 5 = true
SpliceAfter 5 2 2 2 3 2 = true
All = [((1, 2), 1, (0, 0), (4, 2)), ((2, 2), 2, (5, 2), (3, 2)), ((3, 2), 3, (2, 2), (0, 0)), ((4, 2), 4, (1, 2), (5, 2)), ((5, 2), 5, (4, 2), (2, 2))]
SpliceAfter 1 2 5 2 3 2 = true
All = [((1, 2), 1, (0, 0), (5, 2)), ((2, 2), 2, (5, 2), (3, 2)), ((3, 2), 3, (2, 2), (4, 2)), ((4, 2), 4, (3, 2), (0, 0)), ((5, 2), 5, (1, 2), (2, 2))]
SpliceAfter 1 2 5 2 2 2 = true
SpliceAfter 3 2 5 2 3 2 = false
SpliceAfter 9 2 5 2 3 2 = false
SpliceAfter 1 2 9 2 3 2 = false
SpliceAfter 1 2 5 2 3 3 = false
All = [((1, 2), 1, (0, 0), (5, 2)), ((2, 2), 2, (5, 2), (3, 2)), ((3, 2), 3, (2, 2), (4, 2)), ((4, 2), 4, (3, 2), (0, 0)), ((5, 2), 5, (1, 2), (2, 2))]
# from a ring to a linear chain, from a start to a ring, and around a ring
Linked 5 1 2 3 1 0 4 5 = true
SpliceAfter 4 2 2 2 3 2 = true
All = [((1, 2), 1, (1, 2), (1, 2)), ((2, 2), 2, (4, 2), (3, 2)), ((3, 2), 3, (2, 2), (5, 2)), ((4, 2), 4, (0, 0), (2, 2)), ((5, 2), 5, (3, 2), (0, 0))]
SpliceAfter 1 2 4 2 2 2 = true
All = [((1, 2), 1, (2, 2), (4, 2)), ((2, 2), 2, (4, 2), (1, 2)), ((3, 2), 3, (0, 0), (5, 2)), ((4, 2), 4, (1, 2), (2, 2)), ((5, 2), 5, (3, 2), (0, 0))]
SpliceAfter 1 2 2 2 2 2 = true
All = [((1, 2), 1, (4, 2), (2, 2)), ((2, 2), 2, (1, 2), (4, 2)), ((3, 2), 3, (0, 0), (5, 2)), ((4, 2), 4, (2, 2), (1, 2)), ((5, 2), 5, (3, 2), (0, 0))]
# after a link of the run itself: two rings
Linked 4 1 2 3 4 = true
SpliceAfter 2 2 1 2 4 2 = true
All = [((1, 2), 1, (2, 2), (2, 2)), ((2, 2), 2, (1, 2), (1, 2)), ((3, 2), 3, (4, 2), (4, 2)), ((4, 2), 4, (3, 2), (3, 2))]
# Chains reversed, and links moved after others.
# a linear chain from its middle and from its end, and a ring of one
Linked 4 1 2 3 0 4 4 = true
Reverse 2 2 = true
All = [((1, 2), 1, (2, 2), (0, 0)), ((2, 2), 2, (3, 2), (1, 2)), ((3, 2), 3, (0, 0), (2, 2)), ((4, 2), 4, (4, 2), (4, 2))]
Reverse 9 2 = false
Reverse 1 3 = false
Reverse 4 2 = true
Reverse 1 2 = true
All = [((1, 2), 1, (0, 0), (2, 2)), ((2, 2), 2, (1, 2), (3, 2)), ((3, 2), 3, (2, 2), (0, 0)), ((4, 2), 4, (4, 2), (4, 2))]
# a ring of three, and a lone link
Linked 4 1 2 3 1 = true
Reverse 3 2 = true
Reverse 4 2 = true
All = [((1, 2), 1, (2, 2), (3, 2)), ((2, 2), 2, (3, 2), (1, 2)), ((3, 2), 3, (1, 2), (2, 2)), ((4, 2), 4, (0, 0), (0, 0))]
# onward and back in one chain, where it already is, and nowhere
Linked 4 1 2 3 4 = true
MoveAfter 1 2 3 2 = true
All = [((1, 2), 1, (3, 2), (4, 2)), ((2, 2), 2, (0, 0), (3, 2)), ((3, 2), 3, (2, 2), (1, 2)), ((4, 2), 4, (1, 2), (0, 0))]
MoveAfter 4 2 2 2 = true
All = [((1, 2), 1, (3, 2), (0, 0)), ((2, 2), 2, (0, 0), (4, 2)), ((3, 2), 3, (4, 2), (1, 2)), ((4, 2), 4, (2, 2), (3, 2))]
MoveAfter 3 2 4 2 = true
MoveAfter 3 2 3 2 = false
MoveAfter 3 3 4 2 = false
MoveAfter 3 2 9 2 = false
All = [((1, 2), 1, (3, 2), (0, 0)), ((2, 2), 2, (0, 0), (4, 2)), ((3, 2), 3, (4, 2), (1, 2)), ((4, 2), 4, (2, 2), (3, 2))]
# out of a ring of two, out of a ring of one, and into a ring
Linked 4 1 2 1 0 4 4 = true
MoveAfter 2 2 3 2 = true
All = [((1, 2), 1, (1, 2), (1, 2)), ((2, 2), 2, (3, 2), (0, 0)), ((3, 2), 3, (0, 0), (2, 2)), ((4, 2), 4, (4, 2), (4, 2))]
MoveAfter 4 2 3 2 = true
All = [((1, 2), 1, (1, 2), (1, 2)), ((2, 2), 2, (4, 2), (0, 0)), ((3, 2), 3, (0, 0), (4, 2)), ((4, 2), 4, (3, 2), (2, 2))]
MoveAfter 3 2 1 2 = true
All = [((1, 2), 1, (3, 2), (3, 2)), ((2, 2), 2, (4, 2), (0, 0)), ((3, 2), 3, (1, 2), (1, 2)), ((4, 2), 4, (0, 0), (2, 2))]
# Links put in an order.
# a linear chain, and the same order again
Linked 4 1 2 3 4 = true
Arrange 3 2 1 2 4 2 2 2 = true
All = [((1, 2), 1, (3, 2), (4, 2)), ((2, 2), 2, (4, 2), (0, 0)), ((3, 2), 3, (0, 0), (1, 2)), ((4, 2), 4, (1, 2), (2, 2))]
Arrange 3 2 1 2 4 2 2 2 = true
All = [((1, 2), 1, (3, 2), (4, 2)), ((2, 2), 2, (4, 2), (0, 0)), ((3, 2), 3, (0, 0), (1, 2)), ((4, 2), 4, (1, 2), (2, 2))]
# a ring
Linked 4 1 2 3 4 1 = true
Arrange 2 2 1 2 4 2 3 2 = true
All = [((1, 2), 1, (2, 2), (4, 2)), ((2, 2), 2, (3, 2), (1, 2)), ((3, 2), 3, (4, 2), (2, 2)), ((4, 2), 4, (1, 2), (3, 2))]
# a part of one chain, and a link of another
Linked 5 1 2 3 0 4 5 = true
Arrange 2 2 5 2 1 2 = true
All = [((1, 2), 1, (5, 2), (3, 2)), ((2, 2), 2, (0, 0), (5, 2)), ((3, 2), 3, (1, 2), (0, 0)), ((4, 2), 4, (0, 0), (0, 0)), ((5, 2), 5, (2, 2), (1, 2))]
# out of a ring, which stays one
Linked 5 1 2 3 1 0 4 5 = true
Arrange 4 2 3 2 1 2 = true
All = [((1, 2), 1, (3, 2), (5, 2)), ((2, 2), 2, (2, 2), (2, 2)), ((3, 2), 3, (4, 2), (1, 2)), ((4, 2), 4, (0, 0), (3, 2)), ((5, 2), 5, (1, 2), (0, 0))]
# none and one, what is refused, and one twice
Linked 3 1 2 3 = true
Arrange = true
Arrange 2 2 = true
Arrange 9 2 = false
Arrange 3 2 2 3 1 2 = false
Arrange 3 2 1 2 9 2 = false
Arrange 3 2 3 2 1 2 = false
All = [((1, 2), 1, (0, 0), (2, 2)), ((2, 2), 2, (1, 2), (3, 2)), ((3, 2), 3, (2, 2), (0, 0))]
Arrange 1 2 3 2 1 2 = true
All = [((1, 2), 1, (3, 2), (2, 2)), ((2, 2), 2, (1, 2), (0, 0)), ((3, 2), 3, (0, 0), (1, 2))]
# Lookups, advancers, capacity and the counter.
# on to the end and back to the start
Linked 4 1 2 3 4 = true
Along 2 2 = Some([(2, 2), (3, 2), (4, 2), (1, 2), (0, 0)])
Along 3 2 = Some([(3, 2), (4, 2), (2, 2), (1, 2), (0, 0)])
# once around a ring, then `None`; `None` for no link
Linked 3 1 2 3 1 = true
Along 2 2 = Some([(2, 2), (3, 2), (1, 2), (0, 0), (0, 0)])
AlongAll 3 2 = Ok(Some([P0[3](2), P0[1](2), P0[2](2)]))
AlongEmpty = None
Along 9 2 = None
# values read and written
Linked 3 1 2 3 = true
IsEmpty = false
Get 2 2 = Some(2)
GetInx 2 = Some((2, 2))
LinkNoGenInx 2 = Some((2, (1, 3, 2)))
Write 2 2 7 = Some(2)
WriteInx 3 8 = Some(3)
All = [((1, 2), 1, (0, 0), (2, 2)), ((2, 2), 7, (1, 2), (3, 2)), ((3, 2), 8, (2, 2), (0, 0))]
# pointers by index: 1 and 3 are valid, 2 is freed
Linked 3 1 2 3 = true
Remove 2 2 = Success(2)
Ends = (Some(P0[1](2)), Some(P0[3](2)))
Advance 3 = [(1, 2), (3, 2), (0, 0), (0, 0), (0, 0)]
AdvanceFrom 2 0 = [(3, 2), (0, 0), (0, 0), (0, 0), (0, 0)]
AdvanceFrom 2 1 = [(1, 2), (0, 0), (0, 0), (0, 0), (0, 0)]
# after its first `None` an advancer returns `None` again
Linked 2 1 2 = true
Advance 4 = [(1, 2), (2, 2), (0, 0), (0, 0), (0, 0)]
AdvanceFrom 3 0 = [(0, 0), (0, 0), (0, 0), (0, 0), (0, 0)]
# the capacity, and the counter after a clear of all links
Linked 2 1 2 1 = true
Reserve 9 = Ok(())
HasCapacity 9 = true
Maximum = None
ClearAndReserve = (Success(()), true)
IsEmpty = true
Contains 1 2 = false
Counter = Some(3)
# Capacity of new arenas, and advancers along chains of arenas that change.
# a removed link ends a walk, and so does the number of steps
WithMinCapacity 3 = Ok((true, true))
AdvanceEmpty = None
Changes = ((1, 2), [[(0, 0), (0, 0), (0, 0), (0, 0), (0, 0)], [(1, 2), (0, 0), (0, 0), (0, 0), (0, 0)], [(3, 2), (2, 2), (0, 0), (0, 0), (0, 0)], [(0, 0), (0, 0), (0, 0), (0, 0), (0, 0)]])
# Canonical compressions, and compressions with the arguments of the closure.
# a ring and a chain behind a hole
Insert Disconnected 1 = Ok(P0[1](2))
Insert SingleLinkCyclic 2 = Ok(P0[2](2))
Insert Disconnected 3 = Ok(P0[3](2))
Insert ChainEnd 3 2 4 = Ok(P0[4](2))
Remove 1 2 = Success(1)
Canonical 0 = Success(())
All = [((1, 4), 2, (1, 4), (1, 4)), ((2, 4), 3, (0, 0), (3, 4)), ((3, 4), 4, (2, 4), (0, 0))]
# scattered chains
Linked 4 1 3 0 2 4 = true
Remove 1 2 = Success(1)
Insert ChainEnd 4 2 5 = Ok(P0[1](3))
Canonical 0 = Success(())
All = [((1, 4), 2, (0, 0), (2, 4)), ((2, 4), 4, (1, 4), (3, 4)), ((3, 4), 5, (2, 4), (0, 0)), ((4, 4), 3, (0, 0), (0, 0))]
# a chain of 4, 1, 2 and 3, each of whose links is moved
Linked 4 4 1 2 3 = true
Canonical 0 = Success(())
All = [((1, 3), 4, (0, 0), (2, 3)), ((2, 3), 1, (1, 3), (3, 3)), ((3, 3), 2, (2, 3), (4, 3)), ((4, 3), 3, (3, 3), (0, 0))]
# a linear chain and a cycle
Linked 4 1 4 0 2 3 2 = true
Canonical 0 = Success(())
All = [((1, 3), 1, (0, 0), (2, 3)), ((2, 3), 4, (1, 3), (0, 0)), ((3, 3), 2, (4, 3), (4, 3)), ((4, 3), 3, (3, 3), (3, 3))]
# lone links behind holes
InsertMany 6 = 6
Remove 1 2 = Success(1)
Remove 2 2 = Success(2)
Remove 3 2 = Success(3)
Remove 4 2 = Success(4)
Canonical 0 = Success(())
All = [((1, 7), 5, (0, 0), (0, 0)), ((2, 7), 6, (0, 0), (0, 0))]
Canonical 0 = Success(())
All = [((1, 8), 5, (0, 0), (0, 0)), ((2, 8), 6, (0, 0), (0, 0))]
# a ring and a chain behind a hole
Insert Disconnected 1 = Ok(P0[1](2))
Insert SingleLinkCyclic 2 = Ok(P0[2](2))
Insert Disconnected 3 = Ok(P0[3](2))
Insert ChainEnd 3 2 4 = Ok(P0[4](2))
Remove 1 2 = Success(1)
CompressWith 0 = (Success(()), [(P0[2](2), 2, P0[1](4)), (P0[3](2), 3, P0[2](4)), (P0[4](2), 4, P0[3](4))])
All = [((1, 4), 12, (1, 4), (1, 4)), ((2, 4), 23, (0, 0), (3, 4)), ((3, 4), 34, (2, 4), (0, 0))]
Insert Disconnected 9 = Ok(P0[4](4))
# the values of a chain are written in walk order
Linked 4 1 2 3 = true
WriteChain 2 2 = true
All = [((1, 2), 31, (0, 0), (2, 2)), ((2, 2), 12, (1, 2), (3, 2)), ((3, 2), 23, (2, 2), (0, 0)), ((4, 2), 4, (0, 0), (0, 0))]
WriteChain 2 3 = false
Replace 4 2 5 = Some(4)
Get 4 2 = Some(5)
# those of a ring once around
Linked 3 1 2 3 1 = true
WriteChain 2 2 = true
All = [((1, 2), 31, (3, 2), (2, 2)), ((2, 2), 12, (1, 2), (3, 2)), ((3, 2), 23, (2, 2), (1, 2))]
";
