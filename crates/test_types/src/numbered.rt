//! Pointers that lines of texts name by numbers.

use crate::Pair;
use arena_ptr::{Gen8, Gen32, GenKey, InxKey, PtrGen, PtrInx, PtrKey, ToolPtr};
use std::fmt::Debug;

/// A pointer as its index and its generation; (0, 0) is none.
pub type At = (u32, u32);

/// No pointer.
pub const NONE: At = (0, 0);

/// A pointer whose generations are numbers, so that a line can name it.
pub trait Numbered: PtrKey + Debug {
    /// Returns the generation of a number.
    fn generation_of(n: u32) -> Self::Gen;

    /// Returns the number of a generation.
    fn number_of(generation: Self::Gen) -> u32;
}

/// A generation that is a number. No generation is 0.
pub trait Counted: PtrGen {
    /// Returns the generation of a number, or the first one if there is none.
    fn of(n: u32) -> Self;

    /// Returns the number.
    fn number(self) -> u32;
}

impl Counted for Gen8 {
    fn of(n: u32) -> Gen8 {
        Gen8::new(u8::try_from(n).unwrap_or(2)).unwrap_or(Gen8::two())
    }

    fn number(self) -> u32 {
        u32::from(self.get())
    }
}

impl Counted for Gen32 {
    fn of(n: u32) -> Gen32 {
        Gen32::new(n).unwrap_or(Gen32::two())
    }

    fn number(self) -> u32 {
        self.get()
    }
}

impl Counted for () {
    fn of(_: u32) {}

    fn number(self) -> u32 {
        0
    }
}

impl Numbered for ToolPtr {
    fn generation_of(n: u32) -> Gen32 {
        Gen32::of(n)
    }

    fn number_of(generation: Gen32) -> u32 {
        generation.number()
    }
}

impl<I: PtrInx, G: Counted> Numbered for Pair<I, G> {
    fn generation_of(n: u32) -> G {
        G::of(n)
    }

    fn number_of(generation: G) -> u32 {
        generation.number()
    }
}

/// Returns the index of a number, or the invalid pointer's if there is none.
pub fn index<P: PtrKey>(inx: u32) -> P::Inx {
    match P::Inx::try_from_usize(inx as usize) {
        Some(inx) => inx,
        None => P::invalid().inx(),
    }
}

/// Returns the pointer of two numbers.
pub fn at<P: Numbered>(p: At) -> P {
    P::_from_raw(index::<P>(p.0), P::generation_of(p.1))
}

/// Returns an index as a number.
pub fn number<I: InxKey>(i: I) -> u32 {
    match i.try_into_usize() {
        Some(number) => u32::try_from(number).unwrap_or(u32::MAX),
        None => u32::MAX,
    }
}

/// Returns a pointer as its index and its generation.
pub fn numbers<P: Numbered>(p: Option<P>) -> At {
    match p {
        Some(p) => (number(p.inx()), P::number_of(p.generation())),
        None => NONE,
    }
}

/// Returns an interlink's index as a number, 0 for none.
pub fn number_or_zero<I: InxKey>(i: Option<I>) -> u32 {
    match i {
        Some(i) => number(i),
        None => 0,
    }
}
