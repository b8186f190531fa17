//! Lines of a reader.

ghost use Rattle.std.specs.Prelude.{◌≡◌};
ghost use Rattle.line_programs.specs.declared.lines.RunError.TheVariants.{Memory};

use std::alloc::{AllocError, AllocFailed, Global};
use std::io::{ErrorKind, Read, Write};

/// The maximum length of a line that a session accepts, in bytes.
pub const MAX_LINE: usize = 200;

/// Why a run failed.
#[derive(Clone, Copy, Debug, PartialEq, Eq)]
pub enum RunError {
    Read,
    Write,
    /// An allocation failed.
    Memory,
}

impl From<AllocError> for RunError {
    ghost from_gives = { λ _ e. e ≡ Memory };

    fn from(_error: AllocError) -> RunError {
        RunError::Memory
    }
}

impl<T: Drop> From<AllocFailed<T>> for RunError {
    ghost from_gives = { λ _ e. e ≡ Memory };

    fn from(_error: AllocFailed<T>) -> RunError {
        RunError::Memory
    }
}

/// Responds to lines.
pub trait LineSession {
    /// Responds to a line without its line break. Of a line over `MAX_LINE` bytes, it is given one
    /// byte more than that.
    fn end_line<W: Write>(&mut self, line: &[u8], writer: &mut W) -> Result<(), RunError>;

    /// Writes what comes after the last line.
    fn finish<W: Write>(&mut self, writer: &mut W) -> Result<(), RunError>;
}

fn feed<S: LineSession, W: Write>(
    session: &mut S,
    piece: &[u8],
    line: &mut Vec<u8>,
    writer: &mut W,
) -> Result<(), RunError> {
    for byte in piece {
        if *byte == b'\n' {
            session.end_line(line, writer)?;
            line.clear();
        } else if line.len() <= MAX_LINE {
            line.push(*byte)?;
        }
    }
    Ok(())
}

fn end<S: LineSession, W: Write>(
    session: &mut S,
    line: &[u8],
    writer: &mut W,
) -> Result<(), RunError> {
    session.end_line(line, writer)?;
    session.finish(writer)?;
    writer.flush().or(Err(RunError::Write))
}

/// Responds to each line of a reader, and flushes the writer before each read.
///
/// The text after the last line break is a line, too.
pub fn run_lines<S: LineSession, R: Read, W: Write>(
    alloc: Global,
    session: &mut S,
    reader: &mut R,
    writer: &mut W,
) -> Result<(), RunError> {
    let mut piece = vec![in alloc; 0u8; 65536]?;
    let mut line = Vec::new(alloc);
    // Bounded, since each loop is proved to end.
    for _ in 0..u64::MAX {
        if writer.flush().is_err() {
            return Err(RunError::Write);
        }
        match reader.read(&mut piece) {
            Ok(0) => return end(session, &line, writer),
            Ok(n) => feed(session, &piece[..n], &mut line, writer)?,
            Err(e) => {
                if e.kind() != ErrorKind::Interrupted {
                    return Err(RunError::Read);
                }
            }
        }
    }
    Err(RunError::Read)
}
