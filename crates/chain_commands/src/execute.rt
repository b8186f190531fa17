//! Execution of lines.
ghost use Rattle.std.specs.Prelude.{OnOk, string_bytes};
ghost use Rattle.arena_ptr.specs.ToolPtr.{key_of};
ghost use Rattle.arena_pairs.specs.declared.calls.PairCall.TheVariants.{First, TransferToSecond};
ghost use Rattle.chain_commands.specs.Commands.{line_of};
ghost use Rattle.chain_commands.specs.Responses.{ToolLinks, RespondsToShow, RespondsToChain, ExecutesCall, ExecutesOther, ExecutesMoves, ExecutesLine};

use crate::command::{Command, Line, parse};
use crate::infallible_text::{moves_text_capacity, write_moves};
use crate::reply_text::{push_count, push_link, push_pair_reply, push_reply, push_walk};
use arena_base::{ArenaSlot, ArenaTrait};
use arena_pairs::{PairCall, apply_to_pair};
use arena_ptr::{SlotStack, ToolPtr};
use chain_arena::{Call, ChainArena, ChainArenaTrait, LinkNoGen, apply};
use std::alloc::AllocError;
use std::mem::swap;

/// Executes a line and writes its response to `text`.
///
/// # Errors
///
/// - `AllocError`: an allocation failed; only a call may have taken effect.
pub fn respond<S: SlotStack<Item = ArenaSlot<ToolPtr, LinkNoGen<ToolPtr, u32>>>>(
    arena: &mut ChainArena<ToolPtr, u32, S>,
    other: &mut ChainArena<ToolPtr, u32, S>,
    line: &[u8],
    text: &mut String,
) -> Result<(), AllocError>
    ensures { ExecutesLine result (arena.old, other.old) (line_of line.now) (string_bytes text.new)
        (arena.new, other.new) }
{
    text.clear();
    match parse(*text.allocator(), line)? {
        Line::Blank => return Ok(()),
        Line::Bad => text.push_str("bad line")?,
        Line::Good(Command::Change(call)) => make_call(arena, call, text)?,
        Line::Good(Command::Arrange(order)) => make_call(arena, order.into_call(), text)?,
        Line::Good(Command::Transfer(p)) => transfer(arena, other, p, text)?,
        Line::Good(Command::Other) => return exchange(arena, other, text),
        Line::Good(Command::Show(p)) => show(arena, p, text)?,
        Line::Good(Command::Chain(p)) => chain(arena, p, text)?,
        Line::Good(Command::Len) => push_count(text, arena.len())?,
        Line::Good(Command::Moves(reset)) => moves(arena, reset, text)?,
    }
    text.push_str("\n")
}

#[inline(always)]
fn make_call<S: SlotStack<Item = ArenaSlot<ToolPtr, LinkNoGen<ToolPtr, u32>>>>(
    arena: &mut ChainArena<ToolPtr, u32, S>,
    call: Call<ToolPtr, u32>,
    text: &mut String,
) -> Result<(), AllocError>
    ensures { (other : ToolLinks) → ExecutesCall result (arena.old, other) (First call)
        (string_bytes text.new) (arena.new, other) }
{
    text.clear();
    push_reply(text, apply(arena, call))
}

fn transfer<S: SlotStack<Item = ArenaSlot<ToolPtr, LinkNoGen<ToolPtr, u32>>>>(
    arena: &mut ChainArena<ToolPtr, u32, S>,
    other: &mut ChainArena<ToolPtr, u32, S>,
    p: ToolPtr,
    text: &mut String,
) -> Result<(), AllocError>
    ensures { ExecutesCall result (arena.old, other.old) (TransferToSecond p)
        (string_bytes text.new) (arena.new, other.new) }
{
    text.clear();
    push_pair_reply(
        text,
        apply_to_pair(arena, other, PairCall::TransferToSecond(p)),
    )
}

fn exchange<S: SlotStack<Item = ArenaSlot<ToolPtr, LinkNoGen<ToolPtr, u32>>>>(
    arena: &mut ChainArena<ToolPtr, u32, S>,
    other: &mut ChainArena<ToolPtr, u32, S>,
    text: &mut String,
) -> Result<(), AllocError>
    ensures { ExecutesOther result (arena.old, other.old) (string_bytes text.new)
        (arena.new, other.new) }
{
    text.clear();
    text.push_str("ok\n")?;
    swap(arena, other);
    Ok(())
}

fn show<S: SlotStack<Item = ArenaSlot<ToolPtr, LinkNoGen<ToolPtr, u32>>>>(
    arena: &ChainArena<ToolPtr, u32, S>,
    p: ToolPtr,
    text: &mut String,
) -> Result<(), AllocError>
    ensures { OnOk result (RespondsToShow arena.now (key_of p) (string_bytes text.new)) }
{
    text.clear();
    match arena.get_link(p) {
        Some(link) => push_link(text, link.prev(), link.next(), *link.t),
        None => text.push_str("none"),
    }
}

fn chain<S: SlotStack<Item = ArenaSlot<ToolPtr, LinkNoGen<ToolPtr, u32>>>>(
    arena: &ChainArena<ToolPtr, u32, S>,
    p: ToolPtr,
    text: &mut String,
) -> Result<(), AllocError>
    ensures { OnOk result (RespondsToChain arena.now (key_of p) (string_bytes text.new)) }
{
    text.clear();
    match arena.iter_chain(p) {
        Some(links) => push_walk(text, links),
        None => text.push_str("none"),
    }
}

/// Allocates all memory, also for the line feed, first.
fn moves<S: SlotStack<Item = ArenaSlot<ToolPtr, LinkNoGen<ToolPtr, u32>>>>(
    arena: &mut ChainArena<ToolPtr, u32, S>,
    reset: bool,
    text: &mut String,
) -> Result<(), AllocError>
    ensures { ExecutesMoves result arena.old reset text.new arena.new }
{
    text.clear();
    text.reserve(moves_text_capacity(arena.len()))?;
    match arena.compress_canonical_moves(*text.allocator(), reset) {
        Ok((known, moves)) => {
            write_moves(text, moves.as_slice(), known);
            Ok(())
        }
        Err(_) => Err(AllocError),
    }
}
