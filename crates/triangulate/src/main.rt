//! A program that triangulates polygons from standard input.
#![tactic(auto)]

mod lines;
mod numbers;
mod output;
mod picture;
mod rings;
mod session;
mod status;
#[cfg(test)]
mod tests;

use output::Format;
use status::{Status, respond_to_input};
use std::env;
use std::io::{BufWriter, writer};

fn main(rt: HostRuntime) -> Status {
    let format = match env::args(&rt) {
        Ok(mut arguments) => {
            let _ = arguments.next();
            match arguments.next() {
                None => Some(Format::Lines),
                Some(word) if word.as_str() == "--svg" => Some(Format::Svg),
                Some(_) => None,
            }
        }
        Err(_) => None,
    };
    let writer = BufWriter::new(rt.alloc(), writer(&rt));
    respond_to_input(
        rt.alloc(),
        format,
        &mut rt.reader(),
        writer,
        &mut rt.stderr(),
    )
}
