// A forwarding wrapper of the run of `chain_commands`.
ghost use Rattle.chain_commands.specs.Transcripts.{Ends};

use arena_base::ArenaSlot;
use arena_ptr::{SlotStack, ToolPtr};
use chain_arena::{ChainArena, LinkNoGen};
use chain_commands::ToolError;
use std::alloc::Global;
use std::io::{Read, Write};

/// Forwards to `chain_commands::run_on`, under its clause.
pub fn run_on<R: Read, W: Write, S: SlotStack<Item = ArenaSlot<ToolPtr, LinkNoGen<ToolPtr, u32>>>>(
    alloc: Global,
    arena: &mut ChainArena<ToolPtr, u32, S>,
    other: &mut ChainArena<ToolPtr, u32, S>,
    reader: &mut R,
    writer: &mut W,
) -> Result<(), ToolError>
    ensures { Ends result (arena.old, other.old) (arena.new, other.new) (R.remaining reader.old)
        (R.remaining reader.new) (W.contents writer.old) (W.contents writer.new) }
{
    chain_commands::run_on(alloc, arena, other, reader, writer)
}
