//! Exit statuses.

use crate::output::Format;
use crate::session::{RunError, run};
use arena_ptr::ToolPtr;
use chain_arena::ChainArena;
use std::alloc::Global;
use std::io;
use std::io::{Read, Write};
use std::process::{ExitCode, Termination};
use triangulation::Point;

pub struct Status {
    code: ExitCode,
}

impl Termination for Status {
    fn report<R: Eprint>(self, _rt: &R) -> ExitCode {
        let Status { code } = self;
        code
    }
}

/// Returns 0, 1 if a polygon was refused, or 2 after a fault written to `errors`.
pub fn respond_to_input<R: Read, W: Write + Drop, E: Write>(
    alloc: Global,
    format: Option<Format>,
    reader: &mut R,
    writer: io::Result<W>,
    errors: &mut E,
) -> Status {
    let result = match (format, writer) {
        (Some(format), Ok(mut output)) => {
            run::<ToolPtr, ChainArena<ToolPtr, Point>, R, W>(
                alloc,
                format,
                reader,
                &mut output,
            ).map_err(reason)
        }
        (None, _) => Err("usage: triangulate [--svg]\n"),
        (_, Err(_)) => Err(reason(RunError::Memory)),
    };
    let code = match result {
        Ok(0) => ExitCode::SUCCESS,
        Ok(_) => ExitCode::from(1),
        Err(reason) => {
            let _ = errors.write_all(reason.as_bytes());
            ExitCode::from(2)
        }
    };
    Status { code }
}

fn reason(error: RunError) -> &'static str {
    match error {
        RunError::Read => "triangulate: cannot read\n",
        RunError::Write => "triangulate: cannot write\n",
        RunError::Memory => "triangulate: no memory\n",
    }
}
