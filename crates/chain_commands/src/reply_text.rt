//! The texts of responses.
ghost use Rattle.std.specs.Prelude.{◌≡◌, ◌++◌, OnOk, string_bytes, codes, decimal, option_map};
ghost use Rattle.arena_ptr.specs.ToolPtr.{key_of};
ghost use Rattle.chain_commands.specs.Responses.{pointer_text, refusal_text, growth_refusal_text, reply_text, pair_reply_text, at_text, value_text, neighbor_text, show_text, passed_text, walk_text};

use arena_base::ArenaSlot;
use arena_pairs::PairReply;
use arena_ptr::InvalidationResult::{GenerationOverflow, InvalidPtr, Success};
use arena_ptr::{
    ChainInsertionError, InvalidationOption, PtrKey, ReallocationError, SlotStack, ToolPtr,
};
use chain_arena::{ChainIter, LinkNoGen, Reply};
use itoa::Buffer;
use std::alloc::AllocError;

#[inline(always)]
fn push_number(text: &mut String, n: usize) -> Result<(), AllocError>
    ensures { OnOk result (string_bytes text.new ≡ string_bytes text.old ++ decimal n) }
{
    text.push_str(Buffer::new().format(n))
}

fn push_value(text: &mut String, value: u32) -> Result<(), AllocError>
    ensures { OnOk result (string_bytes text.new ≡ string_bytes text.old ++ value_text value) }
{
    text.push_str("value ")?;
    push_number(text, value as usize)
}

fn push_pointer(text: &mut String, p: ToolPtr) -> Result<(), AllocError>
    ensures { OnOk result (string_bytes text.new
        ≡ string_bytes text.old ++ pointer_text (key_of p)) }
{
    let mut buffer = Buffer::new();
    text.push_str(buffer.format(p.inx().get()))?;
    text.push_str(".")?;
    text.push_str(buffer.format(p.generation().get()))
}

fn push_at(text: &mut String, p: ToolPtr) -> Result<(), AllocError>
    ensures { OnOk result (string_bytes text.new ≡ string_bytes text.old ++ at_text p) }
{
    text.push_str("at ")?;
    push_pointer(text, p)
}

fn push_neighbor(text: &mut String, neighbor: Option<ToolPtr>) -> Result<(), AllocError>
    ensures { OnOk result (string_bytes text.new ≡ string_bytes text.old ++ neighbor_text
        (option_map key_of neighbor)) }
{
    match neighbor {
        Some(p) => push_pointer(text, p),
        None => text.push_str("-"),
    }
}

pub fn push_link(
    text: &mut String,
    prev: Option<ToolPtr>,
    next: Option<ToolPtr>,
    value: u32,
) -> Result<(), AllocError>
    ensures { OnOk result (string_bytes text.new
        ≡ string_bytes text.old ++ show_text (option_map key_of prev)
        (option_map key_of next) value) }
{
    text.push_str("prev ")?;
    push_neighbor(text, prev)?;
    text.push_str(" next ")?;
    push_neighbor(text, next)?;
    text.push_str(" value ")?;
    push_number(text, value as usize)
}

#[inline(always)]
pub fn push_reply(text: &mut String, reply: Reply<ToolPtr, u32>) -> Result<(), AllocError>
    ensures { OnOk result (string_bytes text.new ≡ string_bytes text.old ++ reply_text reply) }
{
    match reply {
        Reply::Inserted(Ok(p)) => push_at(text, p),
        Reply::Inserted(Err(error)) => text.push_str(refusal(error)),
        Reply::Done(true) => text.push_str("ok"),
        Reply::Done(false) => text.push_str("none"),
        Reply::Removed(Success(link)) => push_value(text, link.t),
        Reply::Removed(GenerationOverflow(link)) => push_overflown(text, link.t),
        Reply::Removed(InvalidPtr) => text.push_str("none"),
        Reply::RemovedInx(Success((_, link))) => push_value(text, link.t),
        Reply::RemovedInx(GenerationOverflow((_, link))) => push_overflown(text, link.t),
        Reply::RemovedInx(InvalidPtr) => text.push_str("none"),
        Reply::Renewed(Success(p)) => push_at(text, p),
        Reply::Renewed(GenerationOverflow(p)) => {
            push_at(text, p)?;
            text.push_str(" overflow")
        }
        Reply::Renewed(InvalidPtr) => text.push_str("none"),
        Reply::Drained(Some(count)) => push_count(text, count),
        Reply::Drained(None) => text.push_str("none"),
        Reply::Counted(InvalidationOption::Success(())) => text.push_str("ok"),
        Reply::Counted(InvalidationOption::GenerationOverflow(())) => text.push_str("ok overflow"),
        Reply::Reserved(Ok(())) => text.push_str("ok"),
        Reply::Reserved(Err(error)) => text.push_str(growth_refusal(error)),
        Reply::Set => text.push_str("ok"),
    }
}

pub fn push_count(text: &mut String, count: usize) -> Result<(), AllocError>
    ensures { OnOk result (string_bytes text.new
        ≡ string_bytes text.old ++ (codes "count " ++ decimal count)) }
{
    text.push_str("count ")?;
    push_number(text, count)
}

fn push_overflown(text: &mut String, value: u32) -> Result<(), AllocError>
    ensures { OnOk result (string_bytes text.new
        ≡ string_bytes text.old ++ (value_text value ++ codes " overflow")) }
{
    push_value(text, value)?;
    text.push_str(" overflow")
}

pub fn push_pair_reply(text: &mut String, reply: PairReply<ToolPtr, u32>) -> Result<(), AllocError>
    ensures { OnOk result (string_bytes text.new ≡ string_bytes text.old ++ pair_reply_text reply) }
{
    match reply {
        PairReply::Replied(reply) => push_reply(text, reply),
        PairReply::Transferred(Ok(Some(p))) => push_at(text, p),
        PairReply::Transferred(Ok(None)) => text.push_str("none"),
        PairReply::Transferred(Err(error)) => text.push_str(growth_refusal(error)),
    }
}

fn refusal(error: ChainInsertionError) -> &'static str
    ensures { result.now ≡ refusal_text error }
{
    match error {
        ChainInsertionError::FailedLinkRequirement => "refused link",
        ChainInsertionError::NotWithinCapacity => "refused capacity",
        ChainInsertionError::AllocError => "refused memory",
        ChainInsertionError::BeyondMaxCapacity => "refused limit",
    }
}

fn growth_refusal(error: ReallocationError) -> &'static str
    ensures { result.now ≡ growth_refusal_text error }
{
    match error {
        ReallocationError::AllocError => "refused memory",
        ReallocationError::BeyondMaxCapacity => "refused limit",
    }
}

fn push_passed(text: &mut String, p: ToolPtr, value: u32) -> Result<(), AllocError>
    ensures { OnOk result (string_bytes text.new ≡ string_bytes text.old ++ passed_text
        (key_of p) value) }
{
    push_pointer(text, p)?;
    text.push_str(":")?;
    push_number(text, value as usize)
}

pub fn push_walk<S: SlotStack<Item = ArenaSlot<ToolPtr, LinkNoGen<ToolPtr, u32>>>>(
    text: &mut String,
    links: ChainIter<'_, ToolPtr, u32, S>,
) -> Result<(), AllocError>
    ensures { OnOk result (string_bytes text.new ≡ string_bytes text.old ++ walk_text links.entry) }
{
    let mut is_first = true;
    for (p, link) in links {
        if !is_first {
            text.push_str(" ")?;
        }
        is_first = false;
        push_passed(text, p, link.t)?;
    }
    Ok(())
}
