//! An editor of outlines: documents of numbered paragraphs, with bookmarks and undo.
#![tactic(auto)]

mod status;
#[cfg(test)]
mod tests;

use line_programs::Status;
use status::edit_input;
use std::io::{BufWriter, writer};

fn main(rt: HostRuntime) -> Status {
    let output = BufWriter::new(rt.alloc(), writer(&rt));
    edit_input(rt.alloc(), &mut rt.reader(), output, &mut rt.stderr())
}
