//! Tests with readers, writers and memory that fail.

ghost use Rattle.std.specs.Prelude.{◌≤◌};

use super::{LinksOver, SAMPLE, Slot, holds, same};
use arena_base::ArenaTrait;
use arena_ptr::{ChunkStack, HeapStack, LimitedStack, SlotStack, ToolPtr};
use chain_arena::{ChainArenaTrait, LinkInsertKind};
use chain_commands::{ToolError, run, run_on};
use std::alloc::Global;
use std::io;
use std::io::{ErrorKind, Read, Write};
use std::process::Abort;

/// A reader that gives its bytes a few at a time, fails once, and then gives later bytes.
#[derive(Drop)]
struct FailingReader<'a> {
    left: &'a [u8],
    later: &'a [u8],
    step: usize,
    fails_with: Option<ErrorKind>,
}

impl Read for FailingReader<'_> {
    fn read(&mut self, buf: &mut [u8]) -> io::Result<usize> {
        let n = self.step.min(buf.len()).min(self.left.len());
        if n == 0 {
            if let Some(kind) = self.fails_with.take() {
                self.left = self.later;
                return Err(io::Error::from(kind));
            }
        }
        let (now, next) = self.left.split_at(n);
        buf[..n].copy_from_slice(now);
        self.left = next;
        Ok(n)
    }
}

/// A text, and the output by the end of each line.
const READ: &str = "add alone 1\nlen\nadd alone 25\nlen\n";

const WRITTEN: [&str; 5] = [
    "",
    "at 1.2\n",
    "at 1.2\ncount 1\n",
    "at 1.2\ncount 1\nat 2.2\n",
    "at 1.2\ncount 1\nat 2.2\ncount 2\n",
];

/// Runs the program on a reader that fails once after `bytes` bytes.
/// Returns whether the run ends for that, whether exactly the whole lines before it are carried out
/// and have output, and whether it stops reading.
fn ends_at_the_fault<S: SlotStack<Item = Slot>>(
    alloc: Global,
    kind: ErrorKind,
    step: usize,
    bytes: usize,
) -> (bool, bool, bool) {
    let (left, later) = READ.as_bytes().split_at(bytes.min(READ.len()));
    let mut reader = FailingReader {
        left,
        later,
        step,
        fails_with: Some(kind),
    };
    let mut written = Vec::new(alloc);
    let mut arena = LinksOver::<S>::new(alloc);
    let mut other = LinksOver::<S>::new(alloc);
    let result = run_on(alloc, &mut arena, &mut other, &mut reader, &mut written);
    (
        result == Err(ToolError::Read),
        are_whole(left, written.as_slice(), arena.len()),
        reader.left == later,
    )
}

fn line_count(read: &[u8]) -> usize {
    let mut count = 0usize;
    for byte in read {
        if *byte == b'\n' {
            count = count.saturating_add(1);
        }
    }
    count
}

/// Returns whether the output and the number of links are those of the lines that were read.
fn are_whole(read: &[u8], written: &[u8], links: usize) -> bool {
    let lines = line_count(read);
    let want = WRITTEN.get(lines).copied().unwrap_or("no such line");
    written == want.as_bytes() && links == lines.saturating_add(1) / 2
}

/// Checks each kind of fault after each number of bytes.
pub(super) fn check_readers<S: SlotStack<Item = Slot>>(rt: &impl Abort, alloc: Global) {
    for kind in [
        ErrorKind::Other,
        ErrorKind::Interrupted,
        ErrorKind::UnexpectedEof,
    ] {
        for step in [1, 2, 7, 100] {
            for bytes in 0..34 {
                let ended = ends_at_the_fault::<S>(alloc, kind, step, bytes);
                assert!(rt; ended == (true, true, true));
            }
        }
    }
}

#[test]
fn a_reader_of_single_bytes(rt: HostRuntime) {
    let (input, output) = SAMPLE;
    let mut reader = FailingReader {
        left: input.as_bytes(),
        later: "".as_bytes(),
        step: 1,
        fails_with: None,
    };
    let mut written = Vec::new(rt.alloc());
    let result = run(rt.alloc(), &mut reader, &mut written);
    let is_read = result.is_ok() && reader.left.is_empty();
    holds(&rt, "each byte is read", is_read);
    same(&rt, "the sample", written.as_slice(), output.as_bytes());
}

/// A writer that takes a few bytes at a time up to a limit, fails once, and then takes more. Its
/// flushes fail likewise. Every other write is interrupted.
#[derive(Drop)]
struct FailingWriter {
    held: Vec<u8>,
    step: usize,
    limit: usize,
    is_interrupted: bool,
    fails_with: Option<ErrorKind>,
    flushes: usize,
}

impl Write for FailingWriter {
    fn write(&mut self, buf: &[u8]) -> io::Result<usize> {
        self.is_interrupted = !self.is_interrupted;
        if self.is_interrupted {
            return Err(io::Error::from(ErrorKind::Interrupted));
        }
        let n = self.step.min(buf.len()).min(self.limit);
        if n == 0 {
            self.limit = 1000;
            return match self.fails_with {
                Some(kind) => Err(io::Error::from(kind)),
                None => Ok(0),
            };
        }
        let (now, _) = buf.split_at(n);
        self.held.extend_from_slice(now)?;
        self.limit -= n;
        Ok(n)
    }

    fn flush(&mut self) -> io::Result<()> {
        if self.flushes == 0 {
            self.flushes = 1000;
            return Err(io::Error::from(ErrorKind::Other));
        }
        self.flushes -= 1;
        Ok(())
    }
}

fn failing_writer(
    alloc: Global,
    step: usize,
    limit: usize,
    fails_with: Option<ErrorKind>,
) -> FailingWriter {
    FailingWriter {
        held: Vec::new(alloc),
        step,
        limit,
        is_interrupted: false,
        fails_with,
        flushes: 1000,
    }
}

/// Runs the program on a writer. Returns the result and the number of links then.
fn run_to<S: SlotStack<Item = Slot>>(
    alloc: Global,
    writer: &mut FailingWriter,
) -> (Result<(), ToolError>, usize) {
    let mut reader = "add alone 1\nadd alone 2\nadd alone 3\n".as_bytes();
    let mut arena = LinksOver::<S>::new(alloc);
    let mut other = LinksOver::<S>::new(alloc);
    let result = run_on(alloc, &mut arena, &mut other, &mut reader, writer);
    (result, arena.len())
}

/// Returns whether the writer has what it could take of the lines, and no more.
fn is_taken(held: &[u8], limit: usize) -> bool {
    let output = "at 1.2\nat 2.2\nat 3.2\n".as_bytes();
    held == &output[..limit.min(output.len())]
}

/// Runs the program on a writer that fails once at its limit. Returns whether the run ends for
/// that, and whether the writer has what it took before and no more. Returns also whether the line
/// whose output fails is the last carried out.
fn ends_at_the_limit<S: SlotStack<Item = Slot>>(
    alloc: Global,
    fails_with: Option<ErrorKind>,
    step: usize,
    limit: usize,
) -> (bool, bool, bool) {
    let mut writer = failing_writer(alloc, step, limit, fails_with);
    let (result, links) = run_to::<S>(alloc, &mut writer);
    let is_taken = is_taken(writer.held.as_slice(), limit);
    (
        result == Err(ToolError::Write),
        is_taken,
        links == limit / 7 + 1,
    )
}

/// Checks each kind of fault at each limit.
pub(super) fn check_writers<S: SlotStack<Item = Slot>>(rt: &impl Abort, alloc: Global) {
    for fails_with in [None, Some(ErrorKind::Other), Some(ErrorKind::WriteZero)] {
        for step in [1, 3, 100] {
            for limit in 0..21 {
                let ended = ends_at_the_limit::<S>(alloc, fails_with, step, limit);
                assert!(rt; ended == (true, true, true));
            }
        }
    }
}

/// Runs the program on a writer of single bytes that fails at one flush, if there are that many.
/// Returns whether the run ends for that, or else with `Ok`, and whether the writer has these
/// lines.
fn ends_at_the_flush(alloc: Global, flushes: usize, fails: bool, output: &str) -> (bool, bool) {
    let mut reader = "add alone 1\n".as_bytes();
    let mut writer = failing_writer(alloc, 1, 1000, None);
    writer.flushes = flushes;
    let result = run(alloc, &mut reader, &mut writer);
    let want = if fails { Err(ToolError::Write) } else { Ok(()) };
    (result == want, writer.held.as_slice() == output.as_bytes())
}

#[test]
fn a_flush_that_fails(rt: HostRuntime) {
    for (flushes, fails, output) in [
        (0, true, ""),
        (1, true, "at 1.2\n"),
        (2, true, "at 1.2\n"),
        (1000, false, "at 1.2\n"),
    ] {
        let ended = ends_at_the_flush(rt.alloc(), flushes, fails, output);
        assert!(rt; ended == (true, true));
    }
}

/// Returns whether the output is whole lines as wanted, up to the first that was refused memory.
/// From there on it may differ.
fn is_beginning(written: &str, want: &str) -> bool {
    let before = match written.split_once("refused memory\n") {
        Some((before, _)) => before,
        None => written,
    };
    want.starts_with(before) && (before.is_empty() || before.ends_with('\n'))
}

/// Whether what a run did is allowed where one request for memory may be refused, and whether it
/// did all.
type Outcome = (bool, bool);

/// Checks two runs. One request is refused in both at most, as by `tools/test alloc_failures`, so
/// one of them does all. With ample memory both do.
fn check_both(rt: &impl Abort, runs: [Outcome; 2]) {
    let [
        (is_first_right, is_first_whole),
        (is_second_right, is_second_whole),
    ] = runs;
    holds(rt, "each run", is_first_right && is_second_right);
    holds(rt, "one of two", is_first_whole || is_second_whole);
}

/// Returns the outcome of a run on the sample. A run that ends with an allocation failure needs
/// output only for the first lines, any other must read all and have output for each line.
fn outcome_of(ended: Result<(), ToolError>, unread: usize, answered: &[u8]) -> Outcome {
    let (_, output) = SAMPLE;
    let Ok(answered) = str::from_utf8(answered) else {
        return (false, false);
    };
    let is_so = match ended {
        Ok(()) => unread == 0 && answered.split('\n').count() == 12,
        Err(why) => why == ToolError::Memory,
    };
    let is_right = is_so && is_beginning(answered, output);
    (is_right, ended.is_ok() && answered == output)
}

fn written_of(size: usize, left: usize) -> usize
    ensures { result ≤ size }
{
    size.saturating_sub(left)
}

/// A result, the number of bytes that are not read, and that of the bytes written.
type Ended = (Result<(), ToolError>, usize, usize);

/// Runs a text on an arena, with output to a buffer, so that only the run requests memory.
fn run_to_buffer<S: SlotStack<Item = Slot>>(
    alloc: Global,
    arena: &mut LinksOver<S>,
    input: &str,
    written: &mut [u8; 200],
) -> Ended
    ensures { result.2 ≤ 200 }
{
    let mut reader = input.as_bytes();
    let mut buffer = written.as_mut_slice();
    let mut other = LinksOver::<S>::new(alloc);
    let result = run_on(alloc, arena, &mut other, &mut reader, &mut buffer);
    (result, reader.len(), written_of(200, buffer.len()))
}

fn sample_on<S: SlotStack<Item = Slot>>(alloc: Global) -> Outcome {
    let mut arena = LinksOver::<S>::new(alloc);
    let mut written = [0u8; 200];
    let (result, unread, count) = run_to_buffer(alloc, &mut arena, SAMPLE.0, &mut written);
    outcome_of(result, unread, &written[..count])
}

fn sample(alloc: Global) -> Outcome {
    let (input, _) = SAMPLE;
    let mut reader = input.as_bytes();
    let mut written = [0u8; 200];
    let mut buffer = written.as_mut_slice();
    let result = run(alloc, &mut reader, &mut buffer);
    let count = written_of(200, buffer.len());
    outcome_of(result, reader.len(), &written[..count])
}

fn check_samples<S: SlotStack<Item = Slot>>(rt: &impl Abort, alloc: Global) {
    check_both(rt, [sample_on::<S>(alloc), sample_on::<S>(alloc)]);
}

#[test]
fn a_sample_or_its_beginning(rt: HostRuntime) {
    check_both(&rt, [sample(rt.alloc()), sample(rt.alloc())]);
    check_samples::<HeapStack<Slot>>(&rt, rt.alloc());
    check_samples::<LimitedStack<Slot>>(&rt, rt.alloc());
    check_samples::<ChunkStack<Slot>>(&rt, rt.alloc());
}

/// Inserts a link, on a second attempt if the first allocation is refused.
fn insert_lone<S: SlotStack<Item = Slot>>(arena: &mut LinksOver<S>, t: u32) -> Option<ToolPtr> {
    for _ in 0..2 {
        if let Ok(p) = arena.insert_reallocating(LinkInsertKind::Disconnected, t) {
            return Some(p);
        }
    }
    None
}

/// Returns whether the moves of one link are written, or else nothing is.
fn is_moved_or_not(ended: Result<(), ToolError>, written: &[u8]) -> bool {
    let outcome = if ended.is_ok() {
        "moved 1 1.2>1.3\n"
    } else {
        ""
    };
    written == outcome.as_bytes()
}

/// Returns the outcome of `moves` on an arena of one link. Either the moves are written, or the
/// pointer is kept and nothing is written.
fn moves_or_keeps<S: SlotStack<Item = Slot>>(alloc: Global) -> Outcome {
    let mut arena = LinksOver::<S>::new(alloc);
    let Some(p) = insert_lone(&mut arena, 5) else {
        return (false, false);
    };
    let mut written = [0u8; 200];
    let (result, _, count) = run_to_buffer(alloc, &mut arena, "moves keep\n", &mut written);
    let is_kept = arena.contains(p) == result.is_err();
    let is_right = is_moved_or_not(result, &written[..count]) && is_kept;
    (is_right, result.is_ok())
}

#[test]
fn moves_or_nothing(rt: HostRuntime) {
    let alloc = rt.alloc();
    let runs = [
        moves_or_keeps::<HeapStack<Slot>>(alloc),
        moves_or_keeps::<HeapStack<Slot>>(alloc),
    ];
    check_both(&rt, runs);
}
