//! Runs of lines.

use crate::equations::Equations;
use crate::line::{Line, parse};
use arena_base::Arena;
use arena_ptr::{PtrKey, ToolPtr};
use arena_traits::PlainArenaTrait;
use chain_arena::ChainArena;
use chain_traits::ChainArenaTrait;
use line_programs::{LineSession, RunError, run_lines};
use std::alloc::{AllocError, Global};
use std::io::{Read, Write};
use surject_arena::{Counted, Member};

type WordSession = Session<
    ToolPtr,
    ChainArena<ToolPtr, Member<ToolPtr, String>>,
    Arena<ToolPtr, Counted<()>>,
>;

fn push_comparison<
    P: PtrKey,
    A: ChainArenaTrait<P, Member<P, String>> + Drop,
    B: PlainArenaTrait<P, Counted<()>> + Drop,
>(equations: &Equations<P, A, B>, a: &str, b: &str, text: &mut String) -> Result<(), AllocError> {
    match equations.are_equal(a, b) {
        Some(true) => text.push_str("yes"),
        Some(false) => text.push_str("no"),
        None => push_unknown(if equations.contains(a) { b } else { a }, text),
    }
}

fn push_unknown(word: &str, text: &mut String) -> Result<(), AllocError> {
    text.push_str("unknown ")?;
    text.push_str(word)
}

fn push_class<
    P: PtrKey,
    A: ChainArenaTrait<P, Member<P, String>> + Drop,
    B: PlainArenaTrait<P, Counted<()>> + Drop,
>(equations: &Equations<P, A, B>, a: &str, text: &mut String) -> Result<(), AllocError> {
    let Some(pointers) = equations.class(a) else {
        return push_unknown(a, text);
    };
    for p in pointers {
        if !text.is_empty() {
            text.push_str(" ")?;
        }
        if let Some(word) = equations.word(p) {
            text.push_str(word)?;
        }
    }
    Ok(())
}

fn respond<
    P: PtrKey,
    A: ChainArenaTrait<P, Member<P, String>> + Drop,
    B: PlainArenaTrait<P, Counted<()>> + Drop,
>(equations: &mut Equations<P, A, B>, line: &[u8], text: &mut String) -> Result<(), AllocError> {
    text.clear();
    match parse(line) {
        Line::Blank => return Ok(()),
        Line::Bad => text.push_str("bad line")?,
        Line::Equate(a, b) => {
            let united = equations.equate(a, b)?;
            text.push_str(if united { "united" } else { "same" })?;
        }
        Line::Compare(a, b) => push_comparison(equations, a, b, text)?,
        Line::Class(a) => push_class(equations, a, text)?,
        Line::Drop(a) => {
            if equations.drop_word(a) {
                text.push_str("dropped")?;
            } else {
                push_unknown(a, text)?;
            }
        }
    }
    text.push_str("\n")
}

#[derive(Drop)]
struct Session<
    P: PtrKey,
    A: ChainArenaTrait<P, Member<P, String>> + Drop,
    B: PlainArenaTrait<P, Counted<()>> + Drop,
> {
    equations: Equations<P, A, B>,
    text: String,
}

impl<
    P: PtrKey,
    A: ChainArenaTrait<P, Member<P, String>> + Drop,
    B: PlainArenaTrait<P, Counted<()>> + Drop,
> LineSession for Session<P, A, B> {
    fn end_line<W: Write>(&mut self, line: &[u8], writer: &mut W) -> Result<(), RunError> {
        respond(&mut self.equations, line, &mut self.text)?;
        writer
            .write_all(self.text.as_bytes())
            .or(Err(RunError::Write))
    }

    fn finish<W: Write>(&mut self, _writer: &mut W) -> Result<(), RunError> {
        Ok(())
    }
}

pub fn run<R: Read, W: Write>(
    alloc: Global,
    reader: &mut R,
    writer: &mut W,
) -> Result<(), RunError> {
    let mut session: WordSession = Session {
        equations: Equations::new(alloc),
        text: String::new(alloc),
    };
    run_lines(alloc, &mut session, reader, writer)
}
