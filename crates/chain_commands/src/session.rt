//! Runs of lines.
ghost use Rattle.std.specs.Prelude.{◌≡◌, None};
ghost use Rattle.arena_ptr.specs.Generations.{two32};
ghost use Rattle.arena_traits.specs.Arena.{new_arena};
ghost use Rattle.chain_commands.specs.declared.session.ToolError.TheVariants.{Memory};
ghost use Rattle.chain_commands.specs.Responses.{ToolArenas};
ghost use Rattle.chain_commands.specs.Progress.{EndsLine, ExtendsProgress, WritesText, KeepsMore};
ghost use Rattle.chain_commands.specs.Transcripts.{Ends};

use crate::execute::respond;
use crate::lexer::next_line;
use arena_base::{ArenaSlot, ArenaTrait};
use arena_ptr::{SlotStack, ToolPtr};
use chain_arena::{ChainArena, LinkNoGen};
use std::alloc::{AllocError, Global};
use std::io::{ErrorKind, Read, Write};

/// The reason that a run stopped early.
#[derive(Clone, Copy, Debug, PartialEq, Eq)]
pub enum ToolError {
    Read,
    Write,
    /// An allocation failed.
    Memory,
}

impl From<AllocError> for ToolError {
    ghost from_gives = { λ _ error. error ≡ Memory };

    fn from(_error: AllocError) -> ToolError {
        ToolError::Memory
    }
}

/// Retries interrupted writes.
fn write_fully<W: Write>(writer: &mut W, text: &[u8]) -> Result<(), ToolError>
    ensures { WritesText result (W.contents writer.old) (W.contents writer.new) text.now }
{
    let mut written = 0;
    // Bounded, to be proved to end.
    for _ in 0..u64::MAX {
        if written >= text.len() {
            return Ok(());
        }
        let (_, rest) = text.split_at(written);
        match writer.write(rest) {
            Ok(0) => return Err(ToolError::Write),
            Ok(n) => written += n,
            Err(e) => {
                if e.kind() != ErrorKind::Interrupted {
                    return Err(ToolError::Write);
                }
            }
        }
    }
    Err(ToolError::Write)
}

/// Keeps at most 201 bytes: a line over 200 is bad.
fn buffer_line(line: &mut Vec<u8>, more: &[u8]) -> Result<(), ToolError>
    ensures { KeepsMore result line.old.items line.new.items more.now }
{
    let (front, _) = more.split_at(more.len().min(201usize.saturating_sub(line.len())));
    line.extend_from_slice(front)?;
    Ok(())
}

fn end_line<W: Write, S: SlotStack<Item = ArenaSlot<ToolPtr, LinkNoGen<ToolPtr, u32>>>>(
    arena: &mut ChainArena<ToolPtr, u32, S>,
    other: &mut ChainArena<ToolPtr, u32, S>,
    line: &mut Vec<u8>,
    front: &[u8],
    text: &mut String,
    writer: &mut W,
) -> Result<(), ToolError>
    ensures { EndsLine result (arena.old, other.old) line.old.items front.now
        (W.contents writer.old) (arena.new, other.new) line.new.items (W.contents writer.new) }
{
    if line.is_empty() {
        respond(arena, other, front, text)?;
    } else {
        buffer_line(line, front)?;
        respond(arena, other, line, text)?;
        line.clear();
    }
    write_fully(writer, text.as_bytes())
}

fn feed<W: Write, S: SlotStack<Item = ArenaSlot<ToolPtr, LinkNoGen<ToolPtr, u32>>>>(
    arena: &mut ChainArena<ToolPtr, u32, S>,
    other: &mut ChainArena<ToolPtr, u32, S>,
    piece: &[u8],
    line: &mut Vec<u8>,
    text: &mut String,
    writer: &mut W,
) -> Result<(), ToolError>
    ensures { ExtendsProgress result piece.now (arena.old, other.old) line.old.items
        (W.contents writer.old) (arena.new, other.new) line.new.items (W.contents writer.new) }
{
    let mut left = piece;
    while let Some((front, back)) = next_line(left) {
        end_line(arena, other, line, front, text, writer)?;
        left = back;
    }
    buffer_line(line, left)
}

/// Runs the lines of a reader and writes their responses.
///
/// The writer is flushed before each read. The command `other` exchanges the arenas.
///
/// # Errors
///
/// - `Memory`: an allocation failed.
/// - `Write`: the writer failed.
/// - `Read`: the reader failed.
///
/// Lines executed before the error keep their effect.
pub fn run_on<R: Read, W: Write, S: SlotStack<Item = ArenaSlot<ToolPtr, LinkNoGen<ToolPtr, u32>>>>(
    alloc: Global,
    arena: &mut ChainArena<ToolPtr, u32, S>,
    other: &mut ChainArena<ToolPtr, u32, S>,
    reader: &mut R,
    writer: &mut W,
) -> Result<(), ToolError>
    ensures { Ends result (arena.old, other.old) (arena.new, other.new) (R.remaining reader.old)
        (R.remaining reader.new) (W.contents writer.old) (W.contents writer.new) }
{
    let mut piece = vec![in alloc; 0u8; 65536]?;
    let mut line = Vec::new(alloc);
    let mut text = String::new(alloc);
    for _ in 0..u64::MAX {
        if writer.flush().is_err() {
            return Err(ToolError::Write);
        }
        let Ok(n) = reader.read(&mut piece) else {
            return Err(ToolError::Read);
        };
        if n == 0 {
            end_line(arena, other, &mut line, b"", &mut text, writer)?;
            return writer.flush().or(Err(ToolError::Write));
        }
        feed(arena, other, &piece[..n], &mut line, &mut text, writer)?;
    }
    Err(ToolError::Read)
}

/// Runs `run_on` on two new arenas.
///
/// # Errors
///
/// Those of `run_on`.
pub fn run<R: Read, W: Write>(
    alloc: Global,
    reader: &mut R,
    writer: &mut W,
) -> Result<(), ToolError>
    ensures { (new : ToolArenas) × Ends result (new_arena two32 None, new_arena two32 None) new
        (R.remaining reader.old) (R.remaining reader.new) (W.contents writer.old)
        (W.contents writer.new) }
{
    let mut arena: ChainArena<ToolPtr, u32> = ChainArena::new(alloc);
    let mut other: ChainArena<ToolPtr, u32> = ChainArena::new(alloc);
    run_on(alloc, &mut arena, &mut other, reader, writer)
}
