//! Tests of runs over readers and writers in memory.

use crate::output::Format;
use crate::status::respond_to_input;
use std::alloc::Global;
use std::io;
use std::io::{BufWriter, ErrorKind, Read, Write, sink};
use std::process::{Abort, ExitCode, Termination};

/// A reader and writer whose every operation fails.
#[derive(Drop)]
struct Failing;

impl Read for Failing {
    fn read(&mut self, _buf: &mut [u8]) -> io::Result<usize> {
        Err(io::Error::from(ErrorKind::Other))
    }
}

impl Write for Failing {
    fn write(&mut self, _buf: &[u8]) -> io::Result<usize> {
        Err(io::Error::from(ErrorKind::Other))
    }

    fn flush(&mut self) -> io::Result<()> {
        Err(io::Error::from(ErrorKind::Other))
    }
}

/// Checks that a run ends with this status and writes this text to standard error.
fn check<R: Read + Drop, W: Write + Drop>(
    rt: &(impl Abort + Eprint),
    alloc: Global,
    format: Option<Format>,
    mut reader: R,
    writer: io::Result<W>,
    want: (ExitCode, &str),
) {
    let mut errors = Vec::new(alloc);
    let status = respond_to_input(alloc, format, &mut reader, writer, &mut errors);
    let is_reported = status.report(rt) == want.0 && errors.as_slice() == want.1.as_bytes();
    assert!(rt; is_reported, "{}", want.1);
}

#[test]
fn a_fault_ends_the_run_with_status_2(rt: HostRuntime) {
    let alloc = rt.alloc();
    let lines = Some(Format::Lines);
    let triangle = "0 0 1 0 0 1".as_bytes();
    check(
        &rt,
        alloc,
        lines,
        triangle,
        Ok(sink()),
        (ExitCode::SUCCESS, ""),
    );
    check(
        &rt,
        alloc,
        Some(Format::Svg),
        triangle,
        Ok(sink()),
        (ExitCode::SUCCESS, ""),
    );
    let point = "0 0".as_bytes();
    check(
        &rt,
        alloc,
        lines,
        point,
        Ok(sink()),
        (ExitCode::from(1), ""),
    );
    let want = (ExitCode::from(2), "triangulate: cannot read\n");
    check(&rt, alloc, lines, Failing, Ok(sink()), want);
    let want = (ExitCode::from(2), "triangulate: cannot write\n");
    check(
        &rt,
        alloc,
        lines,
        triangle,
        BufWriter::new(alloc, Failing),
        want,
    );
    let want = (ExitCode::from(2), "usage: triangulate [--svg]\n");
    check(&rt, alloc, None, triangle, Ok(sink()), want);
}
