//! Tests of lists of calls on two arenas and their replies.

use super::call_lists::{call, reply_text};
use super::{ChainsOver, Slot, fresh_limited, holds, same};
use arena_pairs::{PairCall, PairReply, run_pair_calls};
use arena_ptr::{LimitStack, LimitedStack, ToolPtr};
use std::alloc::Global;
use std::process::Abort;
use test_types::lines::{Do, parse_call, text};

// Returns the call of a line: the arena, and a call on it or the transfer of a chain to the other.
fn pair_call(alloc: Global, line: &str) -> Option<PairCall<ToolPtr, u32>> {
    let (arena, made) = line.split_once(" ")?;
    let parsed = parse_call(made)?;
    match (arena, parsed.call) {
        ("first", Do::CarryChain) => Some(PairCall::TransferToSecond(parsed.p)),
        ("second", Do::CarryChain) => Some(PairCall::TransferToFirst(parsed.p)),
        ("first", _) => Some(PairCall::First(call(alloc, parsed)?)),
        ("second", _) => Some(PairCall::Second(call(alloc, parsed)?)),
        _ => None,
    }
}

fn pair_calls(alloc: Global, table: &str) -> Vec<PairCall<ToolPtr, u32>> {
    let mut calls = Vec::new(alloc);
    for line in table.lines() {
        if let Some((made, _)) = line.split_once(" = ")
            && let Some(made) = pair_call(alloc, made)
        {
            let _ = calls.push(made);
        }
    }
    calls
}

fn pair_reply_text(alloc: Global, reply: PairReply<ToolPtr, u32>) -> String {
    match reply {
        PairReply::Replied(reply) => reply_text(alloc, reply),
        PairReply::Transferred(outcome) => text(alloc, outcome),
    }
}

// The second arena has a maximum of three links. The chain of 10 and 20 is moved to it from 20, and
// 10 back.
const TRANSFERS: &str = "\
first Insert Disconnected 10 = Ok(P0[1](2))
first Insert ChainEnd 1 2 20 = Ok(P0[2](2))
second Insert Disconnected 30 = Ok(P0[1](2))
second CarryChain 1 3 = Ok(None)
first CarryChain 2 2 = Ok(Some(P0[2](2)))
first Insert Disconnected 40 = Ok(P0[1](4))
first CarryChain 1 4 = Err(BeyondMaxCapacity)
second BreakPrev 2 2 = true
second CarryChain 3 2 = Ok(Some(P0[2](4)))
first RemoveLink 2 4 = Success({(start), (end)} 10)
first RemoveLink 1 4 = Success({(start), (end)} 40)
second RemoveLink 2 2 = Success({(start), (end)} 20)
";

// Runs a table of calls as one list on two arenas, and checks their replies.
fn check_transfers<S: LimitStack<Item = Slot>>(rt: &impl Abort, alloc: Global) {
    let mut first: ChainsOver<S> = fresh_limited(rt, alloc, 9);
    let mut second: ChainsOver<S> = fresh_limited(rt, alloc, 3);
    let made = run_pair_calls(alloc, &mut first, &mut second, pair_calls(alloc, TRANSFERS));
    let mut replies = made.expect(rt, "memory for the replies").into_iter();
    for line in TRANSFERS.lines() {
        let (_, want) = line.split_once(" = ").expect(rt, "a reply");
        let reply = replies.next().expect(rt, "a reply of the list");
        same(rt, line, pair_reply_text(alloc, reply).as_str(), want);
    }
    holds(rt, "no reply more", replies.next().is_none());
}

#[test]
fn transfers_between_limited_arenas(rt: HostRuntime) {
    check_transfers::<LimitedStack<Slot>>(&rt, rt.alloc());
}
