//! A program that schedules tasks by priority.
#![tactic(auto)]

mod status;
#[cfg(test)]
mod tests;

use line_programs::Status;
use status::schedule_input;
use std::io::{BufWriter, writer};

fn main(rt: HostRuntime) -> Status {
    let output = BufWriter::new(rt.alloc(), writer(&rt));
    schedule_input(rt.alloc(), &mut rt.reader(), output, &mut rt.stderr())
}
