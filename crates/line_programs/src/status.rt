//! Exit statuses.

use crate::lines::RunError;
use std::io::Write;
use std::process::{ExitCode, Termination};

/// The exit status of a run. Only `status_of` makes one.
pub struct Status {
    code: ExitCode,
}

impl Termination for Status {
    fn report<R: Eprint>(self, _rt: &R) -> ExitCode {
        let Status { code } = self;
        code
    }
}

/// Returns 0, or 2 after it wrote the name of the program and the fault to `errors`.
pub fn status_of<E: Write>(run: Result<(), RunError>, name: &str, errors: &mut E) -> Status {
    let code = match run {
        Ok(()) => ExitCode::SUCCESS,
        Err(error) => {
            let _ = errors.write_all(name.as_bytes());
            let _ = errors.write_all(reason(error).as_bytes());
            ExitCode::from(2)
        }
    };
    Status { code }
}

fn reason(error: RunError) -> &'static str {
    match error {
        RunError::Read => ": cannot read\n",
        RunError::Write => ": cannot write\n",
        RunError::Memory => ": no memory\n",
    }
}
