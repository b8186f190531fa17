//! Lines of polygons.

use std::alloc::{AllocFailed, Global};
use std::mem;

#[derive(Drop)]
pub struct Lines {
    alloc: Global,
    line: Vec<u8>,
    polygon: Vec<Vec<u8>>,
    number: u64,
}

#[derive(Clone, Copy, Debug, PartialEq, Eq)]
pub enum Ended {
    Ring,
    Blank,
}

impl Lines {
    pub fn new(alloc: Global) -> Lines {
        Lines {
            alloc,
            line: Vec::new(alloc),
            polygon: Vec::new(alloc),
            number: 1,
        }
    }

    pub fn push(&mut self, byte: u8) -> Result<(), AllocFailed<u8>> {
        self.line.push(byte)
    }

    pub fn end_line(&mut self) -> Result<Ended, AllocFailed<Vec<u8>>> {
        self.number = self.number.saturating_add(1);
        let line = mem::replace(&mut self.line, Vec::new(self.alloc));
        if is_blank(&line) {
            return Ok(Ended::Blank);
        }
        self.polygon.push(line)?;
        Ok(Ended::Ring)
    }

    /// Also returns the first line's number.
    pub fn take(&mut self) -> (u64, Vec<Vec<u8>>) {
        let polygon = mem::replace(&mut self.polygon, Vec::new(self.alloc));
        let first = self.number.saturating_sub(polygon.len() as u64 + 1);
        (first, polygon)
    }
}

fn is_blank(line: &[u8]) -> bool {
    line.iter().all(|byte| byte.is_ascii_whitespace())
}
