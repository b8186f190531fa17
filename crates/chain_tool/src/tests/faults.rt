//! Tests of the exit status and of the text on standard error at each fault.

use crate::status::respond_to_input;
use std::alloc::Global;
use std::io;
use std::io::{BufWriter, ErrorKind, Read, Write, sink};
use std::process::{Abort, ExitCode, Termination};

/// A reader and writer whose every operation fails.
#[derive(Drop)]
struct Failing;

impl Read for Failing {
    fn read(&mut self, _buf: &mut [u8]) -> io::Result<usize> {
        Err(io::Error::from(ErrorKind::Other))
    }
}

impl Write for Failing {
    fn write(&mut self, _buf: &[u8]) -> io::Result<usize> {
        Err(io::Error::from(ErrorKind::Other))
    }

    fn flush(&mut self) -> io::Result<()> {
        Err(io::Error::from(ErrorKind::Other))
    }
}

/// Checks that a run ends with this status and writes this text to standard error.
fn check<R: Read + Drop, W: Write + Drop>(
    rt: &(impl Abort + Eprint),
    alloc: Global,
    mut reader: R,
    writer: io::Result<W>,
    want: (ExitCode, &str),
) {
    let mut errors = Vec::new(alloc);
    let status = respond_to_input(alloc, &mut reader, writer, &mut errors);
    let is_reported = status.report(rt) == want.0 && errors.as_slice() == want.1.as_bytes();
    assert!(rt; is_reported, "{}", want.1);
}

#[test]
fn a_fault_is_reported(rt: HostRuntime) {
    let alloc = rt.alloc();
    let lines = "len\n".as_bytes();
    check(&rt, alloc, lines, Ok(sink()), (ExitCode::SUCCESS, ""));
    let want = (ExitCode::FAILURE, "chain_tool: cannot read\n");
    check(&rt, alloc, Failing, Ok(sink()), want);
    let want = (ExitCode::FAILURE, "chain_tool: cannot write\n");
    check(&rt, alloc, lines, BufWriter::new(alloc, Failing), want);
    let refused: io::Result<Failing> = Err(io::Error::from(ErrorKind::OutOfMemory));
    let want = (ExitCode::FAILURE, "chain_tool: no memory\n");
    check(&rt, alloc, lines, refused, want);
}

#[test]
fn a_fault_that_cannot_be_reported(rt: HostRuntime) {
    let status = respond_to_input(rt.alloc(), &mut Failing, Ok(sink()), &mut Failing);
    assert!(rt; status.report(&rt) == ExitCode::FAILURE);
}
