//! Tests of lines, and of a fault. Those of `schedule` have the other faults.

use crate::status::respond_to_input;
use equate_commands::line::{Line, parse};
use std::io;
use std::io::{ErrorKind, Sink};
use std::process::{ExitCode, Termination};

/// Lines, and what they are.
const LINES: [(&str, Line<'static>); 18] = [
    ("", Line::Blank),
    (" \u{3000} ", Line::Blank),
    ("a = b", Line::Equate("a", "b")),
    ("  a\u{a0}=  b ", Line::Equate("a", "b")),
    ("\u{e9} ? =b", Line::Compare("\u{e9}", "=b")),
    ("class ? drop", Line::Compare("class", "drop")),
    ("class drop", Line::Class("drop")),
    ("drop class", Line::Drop("class")),
    ("a", Line::Bad),
    ("a b", Line::Bad),
    ("a == b", Line::Bad),
    ("= = =", Line::Bad),
    ("a = ?", Line::Bad),
    ("class =", Line::Bad),
    ("drop a b", Line::Bad),
    ("a = b c", Line::Bad),
    ("a = b\r", Line::Bad),
    ("a = \u{85}", Line::Bad),
];

/// Returns the number of rows whose line is parsed as another.
fn wrong_rows() -> usize {
    LINES
        .iter()
        .filter(|row| parse(row.0.as_bytes()) != row.1)
        .count()
}

#[test]
fn lines_are_parsed(rt: HostRuntime) {
    assert_eq!(rt; wrong_rows(), 0);
    assert!(rt; parse(b"a = \xff") == Line::Bad);
    assert!(rt; parse(&[b' '; 200]) == Line::Blank && parse(&[b' '; 201]) == Line::Bad);
}

#[test]
fn a_fault_ends_the_run_with_status_2(rt: HostRuntime) {
    let alloc = rt.alloc();
    let mut errors = Vec::new(alloc);
    let refused: io::Result<Sink> = Err(io::Error::from(ErrorKind::OutOfMemory));
    let status = respond_to_input(alloc, &mut "a = b\n".as_bytes(), refused, &mut errors);
    let is_reported = status.report(&rt) == ExitCode::from(2)
        && errors.as_slice() == b"equate: no memory\n".as_slice();
    assert!(rt; is_reported);
}
