//! Tests of lists of calls and their replies.

use super::scripts::{Parsed, lookup};
use super::{ChainsOver, Slot, fresh, fresh_limited, holds, same};
use arena_base::ArenaTrait;
use arena_ptr::{AllocError, LimitStack, SlotStack, ToolPtr};
use chain_arena::{Call, LinkInsertKind, Reply, run_calls};
use std::alloc::Global;
use std::process::Abort;
use test_types::calls::order_of;
use test_types::lines::{Do, parse_call, text, third_of};
use test_types::numbered::Numbered;

// Returns the call of a line, or `None` if lists of calls have no such call.
pub(super) fn call(alloc: Global, parsed: Parsed) -> Option<Call<ToolPtr, u32>> {
    let (kind, p, q, t) = (parsed.kind, parsed.p, parsed.q, parsed.t);
    match parsed.call {
        Do::Insert => Some(Call::Insert { kind, t }),
        Do::InsertWithin => Some(Call::InsertWithin { kind, t }),
        Do::Connect => Some(Call::Connect(p, q)),
        Do::BreakPrev => Some(Call::BreakPrev(p)),
        Do::BreakNext => Some(Call::BreakNext(p)),
        Do::Exchange => Some(Call::ExchangeNext(p, q)),
        Do::Reverse => Some(Call::ReverseChain(p)),
        Do::MoveAfter => Some(Call::MoveAfter(p, q)),
        Do::SpliceAfter => Some(Call::SpliceAfter(p, q, third_of(&parsed))),
        Do::Arrange => Some(Call::ArrangeChain(order_of(alloc, parsed.numbers))),
        Do::RemoveLink => Some(Call::Remove(p)),
        Do::RemoveLinkInx => Some(Call::RemoveInx(parsed.i)),
        Do::Invalidate => Some(Call::Invalidate(p)),
        _ => whole_call(parsed),
    }
}

fn whole_call(parsed: Parsed) -> Option<Call<ToolPtr, u32>> {
    let (p, n, take) = (parsed.p, parsed.n, parsed.t as usize);
    match parsed.call {
        Do::DrainTaking => Some(Call::DrainChain { p, take }),
        Do::Clear => Some(Call::Clear),
        Do::Compress => Some(Call::Compress(n > 0)),
        Do::Canonical => Some(Call::CompressCanonical(n > 0)),
        Do::Reserve => Some(Call::Reserve(n as usize)),
        Do::SetGeneration => Some(Call::SetGeneration(ToolPtr::generation_of(n))),
        Do::IncGeneration => Some(Call::IncGeneration),
        _ => None,
    }
}

// Returns the calls of a table.
fn calls_of(alloc: Global, table: &str) -> Vec<Call<ToolPtr, u32>> {
    let mut calls = Vec::new(alloc);
    for line in table.lines() {
        if let Some((made, _)) = line.split_once(" = ")
            && let Some(parsed) = parse_call(made)
            && let Some(made) = call(alloc, parsed)
        {
            let _ = calls.push(made);
        }
    }
    calls
}

pub(super) fn reply_text(alloc: Global, reply: Reply<ToolPtr, u32>) -> String {
    match reply {
        Reply::Inserted(outcome) => text(alloc, outcome),
        Reply::Done(done) => text(alloc, done),
        Reply::Removed(outcome) => text(alloc, outcome),
        Reply::RemovedInx(outcome) => text(alloc, outcome),
        Reply::Renewed(outcome) => text(alloc, outcome),
        Reply::Drained(count) => text(alloc, count),
        Reply::Counted(outcome) => text(alloc, outcome),
        Reply::Reserved(outcome) => text(alloc, outcome),
        Reply::Set => text(alloc, ()),
    }
}

// Returns the text of a read.
fn read<S: SlotStack<Item = Slot>>(alloc: Global, arena: &mut ChainsOver<S>, line: &str) -> String {
    match parse_call(line) {
        Some(parsed) => lookup(alloc, arena, parsed),
        None => String::new(alloc),
    }
}

// Runs the calls of a table as one list, and checks their replies. The other lines read the arena
// afterwards.
fn replies<S: SlotStack<Item = Slot>>(
    rt: &impl Abort,
    alloc: Global,
    arena: &mut ChainsOver<S>,
    table: &str,
) {
    let made = run_calls(alloc, arena, calls_of(alloc, table));
    let mut replies = made.expect(rt, "memory for the replies").into_iter();
    for line in table.lines() {
        let (call, want) = line.split_once(" = ").expect(rt, "a reply");
        let got = match replies.next() {
            Some(reply) => reply_text(alloc, reply),
            None => read(alloc, arena, call),
        };
        same(rt, line, got.as_str(), want);
    }
    holds(rt, "no reply more", replies.next().is_none());
}

fn insertion_count(replies: &[Reply<ToolPtr, u32>]) -> usize {
    let mut count = 0usize;
    for reply in replies {
        if let Reply::Inserted(Ok(_)) = reply {
            count = count.saturating_add(1);
        }
    }
    count
}

// Makes two insertions as one list, or none if memory for the list or the replies is refused.
// Returns whether there is one more link for each reply that reports one.
pub(super) fn two_calls<S: SlotStack<Item = Slot>>(
    alloc: Global,
    arena: &mut ChainsOver<S>,
) -> Result<bool, AllocError> {
    let kind = LinkInsertKind::Disconnected;
    let before = arena.len();
    let two = [Call::Insert { kind, t: 7 }, Call::Insert { kind, t: 8 }];
    let Ok(calls) = Vec::from_array(alloc, two) else {
        return Err(AllocError);
    };
    let replies = run_calls(alloc, arena, calls)?;
    Ok(arena.len() == before.saturating_add(insertion_count(&replies)))
}

const RUN: &str = "\
Insert Disconnected 10 = Ok(P0[1](2))
Insert ChainEnd 1 2 20 = Ok(P0[2](2))
Connect 2 2 1 2 = true
DrainTaking 2 2 1 = Some(1)
RemoveLinkInx 1 = InvalidPtr
Clear = Success(())
Insert Disconnected 30 = Ok(P0[1](4))
Insert ChainEnd 1 4 40 = Ok(P0[2](4))
Insert ChainEnd 2 4 50 = Ok(P0[3](4))
BreakNext 2 4 = true
DrainTaking 1 4 5 = Some(2)
Debug = {P0[3](4): {(start), (end)} 50}
";

// Each call that overflows, at the greatest generation.
const OVERFLOWS: &str = "\
SetGeneration 4294967295 = ()
IncGeneration = GenerationOverflow(())
IncGeneration = Success(())
SetGeneration 4294967295 = ()
Insert Disconnected 50 = Ok(P0[1](ffffffff))
Invalidate 1 4294967295 = GenerationOverflow(P0[1](2))
SetGeneration 4294967295 = ()
RemoveLink 1 2 = GenerationOverflow({(start), (end)} 50)
SetGeneration 4294967295 = ()
Insert Disconnected 60 = Ok(P0[1](ffffffff))
RemoveLinkInx 1 = GenerationOverflow((Gen32 { number: 4294967295 }, {(start), (end)} 60))
Insert Disconnected 70 = Ok(P0[1](2))
SetGeneration 4294967295 = ()
Compress 1 = Success(())
SetGeneration 4294967295 = ()
Compress 0 = GenerationOverflow(())
SetGeneration 4294967295 = ()
Clear = GenerationOverflow(())
SetGeneration 4294967295 = ()
Compress 0 = Success(())
Clear = Success(())
";

// Each call that changes links, with each reply but allocation failures and overflows, under a
// maximum of three.
const EVERY_REPLY: &str = "\
Insert Disconnected 10 = Ok(P0[1](2))
Insert ChainEnd 3 2 11 = Err(FailedLinkRequirement)
Insert ChainEnd 1 2 20 = Ok(P0[2](2))
Reserve 3 = Ok(())
Reserve 4 = Err(BeyondMaxCapacity)
InsertWithin ChainEnd 3 2 30 = Err(FailedLinkRequirement)
InsertWithin Disconnected 30 = Ok(P0[3](2))
InsertWithin Disconnected 40 = Err(NotWithinCapacity)
Insert Disconnected 40 = Err(BeyondMaxCapacity)
Connect 2 2 3 2 = true
Connect 2 2 3 2 = false
Exchange 1 2 2 2 = true
Exchange 3 2 1 2 = false
Reverse 1 2 = true
Reverse 1 3 = false
Reverse 1 2 = true
MoveAfter 3 2 2 2 = true
MoveAfter 2 2 2 2 = false
MoveAfter 1 3 2 2 = false
MoveAfter 3 2 1 2 = true
SpliceAfter 1 2 3 2 3 2 = true
SpliceAfter 3 2 3 2 3 2 = false
Arrange 3 2 1 2 = true
Arrange 3 2 3 2 = false
Arrange 3 2 1 3 = false
Arrange = true
BreakPrev 3 2 = false
Arrange 1 2 3 2 = true
BreakNext 2 2 = true
BreakNext 2 2 = false
BreakPrev 3 2 = true
BreakPrev 3 2 = false
Invalidate 1 2 = Success(P0[1](3))
Invalidate 1 2 = InvalidPtr
RemoveLink 2 2 = Success({(start), (end)} 20)
RemoveLink 2 2 = InvalidPtr
RemoveLinkInx 3 = Success((Gen32 { number: 2 }, {(start), (end)} 30))
RemoveLinkInx 3 = InvalidPtr
Compress 0 = Success(())
Canonical 0 = Success(())
DrainTaking 1 3 5 = None
Compress 1 = Success(())
DrainTaking 1 2 5 = Some(1)
Clear = Success(())
";

// Over a stack that refuses every other growth, the first of two calls is refused, and the second
// is not.
const REFUSED: &str = "\
Insert Disconnected 1 = Err(AllocError)
Insert Disconnected 2 = Ok(P0[1](2))
Debug = {P0[1](2): {(start), (end)} 2}
";

// Runs a list on a new arena.
fn check_list<S: SlotStack<Item = Slot>>(rt: &impl Abort, alloc: Global, list: &str) {
    let mut arena: ChainsOver<S> = fresh(alloc);
    replies(rt, alloc, &mut arena, list);
}

pub(super) fn check_lists<S: SlotStack<Item = Slot>>(rt: &impl Abort, alloc: Global) {
    check_list::<S>(rt, alloc, RUN);
    check_list::<S>(rt, alloc, OVERFLOWS);
}

pub(super) fn check_refused_list<S: SlotStack<Item = Slot>>(rt: &impl Abort, alloc: Global) {
    check_list::<S>(rt, alloc, REFUSED);
}

pub(super) fn check_every_reply<S: LimitStack<Item = Slot>>(rt: &impl Abort, alloc: Global) {
    let mut arena: ChainsOver<S> = fresh_limited(rt, alloc, 3);
    replies(rt, alloc, &mut arena, EVERY_REPLY);
}
