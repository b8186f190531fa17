//! Runs and their exit statuses.

use line_programs::{RunError, Status, status_of};
use outline_commands::session::run;
use std::alloc::Global;
use std::io;
use std::io::{Read, Write};

/// Returns 0, or 2 after a fault, written to `errors`.
pub fn edit_input<R: Read, W: Write + Drop, E: Write>(
    alloc: Global,
    reader: &mut R,
    writer: io::Result<W>,
    errors: &mut E,
) -> Status {
    let result = match writer {
        Ok(mut output) => run(alloc, reader, &mut output),
        Err(_) => Err(RunError::Memory),
    };
    status_of(result, "outline", errors)
}
