//! Runs.

use crate::lines::{Ended, Lines};
use crate::output::{Format, push_triangle, refusal_text};
use crate::picture::{push_head, push_path, push_tail};
use crate::rings::{Refusal, triangulate_lines};
use arena_ptr::PtrKey;
use chain_traits::ChainArenaTrait;
use std::alloc::{AllocError, AllocFailed, Global};
use std::io::{ErrorKind, Read, Write};
use triangulation::{Point, Triangle};

#[derive(Clone, Copy, Debug, PartialEq, Eq)]
pub enum RunError {
    Read,
    Write,
    Memory,
}

impl From<AllocError> for RunError {
    fn from(_error: AllocError) -> RunError {
        RunError::Memory
    }
}

impl<T: Drop> From<AllocFailed<T>> for RunError {
    fn from(_error: AllocFailed<T>) -> RunError {
        RunError::Memory
    }
}

#[derive(Drop)]
struct Session {
    alloc: Global,
    format: Format,
    text: String,
    drawn: Vec<Triangle>,
    refused: usize,
}

impl Session {
    fn put_triangles<W: Write>(
        &mut self,
        triangles: &[Triangle],
        writer: &mut W,
    ) -> Result<(), RunError> {
        if self.format == Format::Svg {
            self.drawn.extend_from_slice(triangles)?;
            return Ok(());
        }
        for t in triangles {
            self.text.clear();
            push_triangle(&mut self.text, *t)?;
            self.text.push_str("\n")?;
            put(self.text.as_str(), writer)?;
        }
        put("\n", writer)
    }

    fn put_refusal<W: Write>(
        &mut self,
        first: u64,
        refusal: Refusal,
        writer: &mut W,
    ) -> Result<(), RunError> {
        self.refused = self.refused.saturating_add(1);
        let reason = refusal_text(self.alloc, first, refusal)?;
        if self.format == Format::Svg {
            put("<!-- ", writer)?;
            put(reason.as_str(), writer)?;
            return put(" -->\n", writer);
        }
        put(reason.as_str(), writer)?;
        put("\n\n", writer)
    }

    fn put_picture<W: Write>(&mut self, writer: &mut W) -> Result<(), RunError> {
        self.text.clear();
        push_head(&mut self.text, &self.drawn)?;
        put(self.text.as_str(), writer)?;
        for (i, t) in self.drawn.iter().enumerate() {
            self.text.clear();
            push_path(&mut self.text, i, *t)?;
            put(self.text.as_str(), writer)?;
        }
        self.text.clear();
        push_tail(&mut self.text)?;
        put(self.text.as_str(), writer)
    }
}

fn put<W: Write>(text: &str, writer: &mut W) -> Result<(), RunError> {
    writer.write_all(text.as_bytes()).or(Err(RunError::Write))
}

fn end_polygon<P: PtrKey, A: ChainArenaTrait<P, Point> + Drop, W: Write>(
    session: &mut Session,
    lines: &mut Lines,
    writer: &mut W,
) -> Result<(), RunError> {
    let (first, polygon) = lines.take();
    if polygon.is_empty() {
        return Ok(());
    }
    match triangulate_lines::<P, A>(session.alloc, polygon) {
        Ok(triangles) => session.put_triangles(&triangles, writer),
        Err(refusal) => session.put_refusal(first, refusal, writer),
    }
}

fn end_line<P: PtrKey, A: ChainArenaTrait<P, Point> + Drop, W: Write>(
    session: &mut Session,
    lines: &mut Lines,
    writer: &mut W,
) -> Result<(), RunError> {
    match lines.end_line()? {
        Ended::Ring => Ok(()),
        Ended::Blank => end_polygon::<P, A, W>(session, lines, writer),
    }
}

fn feed<P: PtrKey, A: ChainArenaTrait<P, Point> + Drop, W: Write>(
    session: &mut Session,
    lines: &mut Lines,
    piece: &[u8],
    writer: &mut W,
) -> Result<(), RunError> {
    for byte in piece {
        if *byte == b'\n' {
            end_line::<P, A, W>(session, lines, writer)?;
        } else {
            lines.push(*byte)?;
        }
    }
    Ok(())
}

fn finish<P: PtrKey, A: ChainArenaTrait<P, Point> + Drop, W: Write>(
    session: &mut Session,
    lines: &mut Lines,
    writer: &mut W,
) -> Result<usize, RunError> {
    end_line::<P, A, W>(session, lines, writer)?;
    lines.end_line()?;
    end_polygon::<P, A, W>(session, lines, writer)?;
    if session.format == Format::Svg {
        session.put_picture(writer)?;
    }
    match writer.flush() {
        Ok(()) => Ok(session.refused),
        Err(_) => Err(RunError::Write),
    }
}

/// Triangulates the polygons of a reader, and returns how many were refused.
pub fn run<P: PtrKey, A: ChainArenaTrait<P, Point> + Drop, R: Read, W: Write>(
    alloc: Global,
    format: Format,
    reader: &mut R,
    writer: &mut W,
) -> Result<usize, RunError> {
    let mut piece = vec![in alloc; 0u8; 65536]?;
    let mut lines = Lines::new(alloc);
    let mut session = Session {
        alloc,
        format,
        text: String::new(alloc),
        drawn: Vec::new(alloc),
        refused: 0,
    };
    // Bounded, since each loop is proved to end.
    for _ in 0..u64::MAX {
        match reader.read(&mut piece) {
            Ok(0) => return finish::<P, A, W>(&mut session, &mut lines, writer),
            Ok(n) => feed::<P, A, W>(&mut session, &mut lines, &piece[..n], writer)?,
            Err(e) => {
                if e.kind() != ErrorKind::Interrupted {
                    return Err(RunError::Read);
                }
            }
        }
    }
    Err(RunError::Read)
}
