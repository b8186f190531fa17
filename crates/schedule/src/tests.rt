//! Tests of lines, and of runs over readers and writers in memory.

use crate::status::schedule_input;
use schedule_commands::line::{Line, parse};
use schedule_commands::refusal::Refusal;
use std::alloc::Global;
use std::io;
use std::io::{BufWriter, ErrorKind, Read, Write, sink};
use std::process::{Abort, ExitCode, Termination};

/// Lines, and what they are.
const LINES: [(&str, Result<Line<'static>, Refusal>); 20] = [
    ("", Ok(Line::Blank)),
    (" \u{3000} ", Ok(Line::Blank)),
    ("spawn a 0", Ok(Line::Spawn("a", 0))),
    ("  spawn\u{a0}run  9 ", Ok(Line::Spawn("run", 9))),
    ("run 1000000", Ok(Line::Run(1_000_000))),
    ("run 007", Ok(Line::Run(7))),
    ("block \u{e9} wake", Ok(Line::Block("\u{e9}", "wake"))),
    ("wake 1", Ok(Line::Wake("1"))),
    ("kill kill", Ok(Line::Kill("kill"))),
    ("spawn a", Err(Refusal::MissingWord)),
    ("spawn a 1 1", Err(Refusal::ExtraWord)),
    ("spawn a 10", Err(Refusal::BadNumber)),
    ("spawn 1 a", Err(Refusal::BadNumber)),
    ("run +1", Err(Refusal::BadNumber)),
    ("run 1000001", Err(Refusal::BadNumber)),
    ("run 4294967297", Err(Refusal::BadNumber)),
    ("run", Err(Refusal::MissingWord)),
    ("kill a b c d", Err(Refusal::ExtraWord)),
    ("Kill a", Err(Refusal::UnknownCommand)),
    ("kill a\r", Err(Refusal::BadText)),
];

/// Returns the number of rows whose line is parsed as another.
fn wrong_rows() -> usize {
    LINES
        .iter()
        .filter(|row| parse(row.0.as_bytes()) != row.1)
        .count()
}

#[test]
fn lines_are_parsed(rt: HostRuntime) {
    assert_eq!(rt; wrong_rows(), 0);
    assert!(rt; parse(b"kill \xff") == Err(Refusal::BadText));
    assert!(rt; parse(&[b' '; 200]) == Ok(Line::Blank));
    assert!(rt; parse(&[b' '; 201]) == Err(Refusal::BadText));
}

/// A reader and writer whose every operation fails.
#[derive(Drop)]
struct Failing;

impl Read for Failing {
    fn read(&mut self, _buf: &mut [u8]) -> io::Result<usize> {
        Err(io::Error::from(ErrorKind::Other))
    }
}

impl Write for Failing {
    fn write(&mut self, _buf: &[u8]) -> io::Result<usize> {
        Err(io::Error::from(ErrorKind::Other))
    }

    fn flush(&mut self) -> io::Result<()> {
        Err(io::Error::from(ErrorKind::Other))
    }
}

/// Checks that a run ends with this status and writes this text to standard error.
fn check<R: Read + Drop, W: Write + Drop>(
    rt: &(impl Abort + Eprint),
    alloc: Global,
    mut reader: R,
    writer: io::Result<W>,
    want: (ExitCode, &str),
) {
    let mut errors = Vec::new(alloc);
    let status = schedule_input(alloc, &mut reader, writer, &mut errors);
    let is_reported = status.report(rt) == want.0 && errors.as_slice() == want.1.as_bytes();
    assert!(rt; is_reported, "{}", want.1);
}

#[test]
fn a_fault_ends_the_run_with_status_2(rt: HostRuntime) {
    let alloc = rt.alloc();
    let lines = "run 1\n".as_bytes();
    check(&rt, alloc, lines, Ok(sink()), (ExitCode::SUCCESS, ""));
    let want = (ExitCode::from(2), "schedule: cannot read\n");
    check(&rt, alloc, Failing, Ok(sink()), want);
    let want = (ExitCode::from(2), "schedule: cannot write\n");
    check(&rt, alloc, lines, BufWriter::new(alloc, Failing), want);
    let refused: io::Result<Failing> = Err(io::Error::from(ErrorKind::OutOfMemory));
    let want = (ExitCode::from(2), "schedule: no memory\n");
    check(&rt, alloc, lines, refused, want);
}
