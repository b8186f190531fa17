//! Sessions, which execute lines and respond.

use crate::command_error::CommandError;
use crate::editor::{Editor, Paragraph};
use crate::line::{Line, parse};
use crate::refusal::{Refusal, reason};
use arena_ptr::{PtrKey, ToolPtr};
use chain_arena::ChainArena;
use chain_renumbering::RenumberChainArenaTrait;
use documents::Entry;
use line_programs::{LineSession, RunError, run_lines};
use std::alloc::{AllocError, Global};
use std::io::{Read, Write};

/// An editor, the number of lines so far, and the response to the last one.
#[derive(Drop)]
pub struct Session<P: PtrKey, A: RenumberChainArenaTrait<P, Entry<Paragraph>> + Drop> {
    editor: Editor<P, A>,
    lines: u64,
    response: String,
    alloc: Global,
}

pub type ToolSession = Session<ToolPtr, ChainArena<ToolPtr, Entry<Paragraph>>>;

impl<P: PtrKey, A: RenumberChainArenaTrait<P, Entry<Paragraph>> + Drop> Session<P, A> {
    pub fn new(alloc: Global) -> Result<Self, AllocError> {
        Ok(Session {
            editor: Editor::new(alloc)?,
            lines: 0,
            response: String::new(alloc),
            alloc,
        })
    }

    pub fn respond(&mut self, line: &[u8]) -> Result<&str, AllocError> {
        self.lines = self.lines.saturating_add(1);
        self.response.clear();
        let result = match parse(line) {
            Ok(line) => self.execute(line),
            Err(refusal) => Err(CommandError::Refused(refusal)),
        };
        match result {
            Ok(()) => Ok(&self.response),
            Err(CommandError::Refused(refusal)) => {
                self.refuse(refusal)?;
                Ok(&self.response)
            }
            Err(CommandError::Memory) => Err(AllocError),
        }
    }

    fn refuse(&mut self, refusal: Refusal) -> Result<(), AllocError> {
        let text = format!(in self.alloc; "line {}: {}\n", self.lines, reason(refusal))?;
        self.response.push_str(&text)
    }

    pub fn editor(&self) -> &Editor<P, A> {
        &self.editor
    }

    /// Executes a command and appends its response.
    pub fn execute(&mut self, line: Line<'_>) -> Result<(), CommandError> {
        match line {
            Line::Go(name) => self.go(name),
            Line::Print(name) => self.print(name),
            Line::Back(name) => self.print_back(name),
            Line::List => Ok(self.list()?),
            Line::Add(name, text) => {
                let number = self.editor.add(name, text)?;
                Ok(self.respond_number(number)?)
            }
            Line::After(number, text) => {
                let number = self.editor.insert_after(number, text)?;
                Ok(self.respond_number(number)?)
            }
            Line::Before(number, text) => {
                let number = self.editor.insert_before(number, text)?;
                Ok(self.respond_number(number)?)
            }
            _ => self.change(line),
        }
    }

    fn change(&mut self, line: Line<'_>) -> Result<(), CommandError> {
        match line {
            Line::Document(name) => self.editor.create(name),
            Line::Edit(number, text) => self.editor.edit(number, text),
            Line::Delete(number) => self.editor.delete(number),
            Line::Move(first, last, place) => self.editor.move_range(first, last, place),
            Line::Split(number, name) => self.editor.split(number, name),
            Line::Join(name, other) => self.editor.join(name, other),
            Line::Mark(name, number) => self.editor.mark(name, number),
            Line::Undo => Ok(self.editor.undo()?),
            Line::Renumber => Ok(self.editor.renumber()?),
            _ => Ok(()),
        }
    }

    fn respond_number(&mut self, number: usize) -> Result<(), AllocError> {
        let text = format!(in self.alloc; "paragraph {}\n", number)?;
        self.response.push_str(&text)
    }

    fn respond_paragraph(&mut self, number: usize) -> Result<(), CommandError> {
        let text = format!(in self.alloc; "{} {}\n", number, self.editor.text(number)?)?;
        Ok(self.response.push_str(&text)?)
    }

    fn go(&mut self, name: &str) -> Result<(), CommandError> {
        let (number, document) = self.editor.bookmark(name)?;
        self.response.push_str(document)?;
        self.response.push_str(" ")?;
        self.respond_paragraph(number)
    }

    fn print(&mut self, name: &str) -> Result<(), CommandError> {
        let document = self.editor.document(name)?;
        for number in self.editor.numbers(document)? {
            self.respond_paragraph(number)?;
        }
        Ok(())
    }

    fn print_back(&mut self, name: &str) -> Result<(), CommandError> {
        let document = self.editor.document(name)?;
        for number in self.editor.numbers_back(document)? {
            self.respond_paragraph(number)?;
        }
        Ok(())
    }

    fn list(&mut self) -> Result<(), AllocError> {
        for title in self.editor.titles() {
            let count = self.editor.numbers(title.handle)?.len();
            let text = format!(in self.alloc; "{} {}\n", title.name, count)?;
            self.response.push_str(&text)?;
        }
        Ok(())
    }
}

impl<P: PtrKey, A: RenumberChainArenaTrait<P, Entry<Paragraph>> + Drop> LineSession
    for Session<P, A> {
    fn end_line<W: Write>(&mut self, line: &[u8], writer: &mut W) -> Result<(), RunError> {
        let response = self.respond(line)?;
        writer
            .write_all(response.as_bytes())
            .or(Err(RunError::Write))
    }

    fn finish<W: Write>(&mut self, _writer: &mut W) -> Result<(), RunError> {
        Ok(())
    }
}

/// Executes the lines of a reader and writes the responses.
pub fn run<R: Read, W: Write>(
    alloc: Global,
    reader: &mut R,
    writer: &mut W,
) -> Result<(), RunError> {
    let mut session: ToolSession = Session::new(alloc)?;
    run_lines(alloc, &mut session, reader, writer)
}
