//! A program that keeps classes of equal words.
#![tactic(auto)]

mod status;
#[cfg(test)]
mod tests;

use line_programs::Status;
use status::respond_to_input;
use std::io::{BufWriter, writer};

fn main(rt: HostRuntime) -> Status {
    let responses = BufWriter::new(rt.alloc(), writer(&rt));
    respond_to_input(rt.alloc(), &mut rt.reader(), responses, &mut rt.stderr())
}
