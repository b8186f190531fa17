//! Exit statuses.

use chain_commands::{ToolError, run};
use std::alloc::Global;
use std::io;
use std::io::{Read, Write};
use std::process::{ExitCode, Termination};

/// The exit status of a run, made only by `respond_to_input` and never dropped.
pub struct Status {
    code: ExitCode,
}

impl Termination for Status {
    fn report<R: Eprint>(self, _rt: &R) -> ExitCode {
        let Status { code } = self;
        code
    }
}

/// Runs the lines, writes a fault to `errors`, and returns the status.
pub fn respond_to_input<R: Read, W: Write + Drop, E: Write>(
    alloc: Global,
    reader: &mut R,
    writer: io::Result<W>,
    errors: &mut E,
) -> Status {
    let result = match writer {
        Ok(mut responses) => run(alloc, reader, &mut responses),
        Err(_) => Err(ToolError::Memory),
    };
    let code = match result {
        Ok(()) => ExitCode::SUCCESS,
        Err(error) => {
            let _ = errors.write_all(reason(error).as_bytes());
            ExitCode::FAILURE
        }
    };
    Status { code }
}

fn reason(error: ToolError) -> &'static str {
    match error {
        ToolError::Read => "chain_tool: cannot read\n",
        ToolError::Write => "chain_tool: cannot write\n",
        ToolError::Memory => "chain_tool: no memory\n",
    }
}
