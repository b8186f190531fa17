//! Undo of changes by their inverses.

ghost use Rattle.std.specs.Prelude.{◌≡◌, ◌+◌, OnErr, OnOk, vec_len};

use crate::editor::{Editor, Paragraph, Target};
use crate::refusal::Refusal;
use arena_ptr::PtrKey;
use chain_traits::ChainArenaTrait;
use documents::Entry;

/// Where a range was, by number.
#[derive(Clone, Copy, Debug, PartialEq, Eq)]
pub enum Origin {
    First(usize),
    After(usize),
}

/// A change, with what its inverse needs.
#[derive(Drop)]
pub enum Change {
    /// No paragraph was moved.
    Nothing,
    Document,
    Insertion,
    /// The former text.
    Edit(usize, String),
    Deletion(usize, Origin),
    Move(usize, usize, Origin),
    Split(usize),
    Mark(String, Option<usize>),
}

impl<P: PtrKey, A: ChainArenaTrait<P, Entry<Paragraph>> + Drop> Editor<P, A> {
    /// Undoes the last change that was not undone.
    pub fn undo(&mut self) -> Result<(), Refusal>
        ensures err { OnErr result ((vec_len self.old.changes ≡ 0) × (self.new ≡ self.old)) }
        ensures one { OnOk result (vec_len self.new.changes + 1 ≡ vec_len self.old.changes) }
    {
        if self.changes.is_empty() {
            return Err(Refusal::NothingToUndo);
        }
        match self.changes.pop() {
            Some(change) => {
                let _ = self.reverse(change);
                Ok(())
            }
            None => unreachable!(),
        }
    }

    fn reverse(&mut self, change: Change) -> Option<()>
        ensures { self.new.changes ≡ self.old.changes }
    {
        match change {
            Change::Nothing => Some(()),
            Change::Document => self.drop_last_document(),
            Change::Insertion => self.drop_last_paragraph(),
            Change::Edit(number, text) => self.restore_text(number, text),
            Change::Deletion(number, origin) => {
                self.set_deleted(number, false);
                self.put_back(number, number, origin)
            }
            Change::Move(first, last, origin) => self.put_back(first, last, origin),
            Change::Split(former) => {
                let document = self.titles.get(former)?.handle;
                let split = self.titles.last()?.handle;
                self.outline.join(document, split)?;
                self.drop_last_document()
            }
            Change::Mark(name, former) => self.restore_mark(&name, former),
        }
    }

    fn drop_last_document(&mut self) -> Option<()>
        ensures { self.new.changes ≡ self.old.changes }
    {
        let title = self.titles.pop()?;
        let _ = self.names.remove(title.name.as_str());
        let _ = self.outline.remove_list(title.handle);
        Some(())
    }

    fn drop_last_paragraph(&mut self) -> Option<()>
        ensures { self.new.changes ≡ self.old.changes }
    {
        let numbered = self.paragraphs.pop()?;
        let _ = self.outline.remove(numbered.pointer);
        Some(())
    }

    fn restore_text(&mut self, number: usize, text: String) -> Option<()>
        ensures { self.new.changes ≡ self.old.changes }
    {
        let p = self.paragraph(number).ok()?;
        let _ = self.outline.replace(p, Paragraph { number, text })?;
        Some(())
    }

    fn put_back(&mut self, first: usize, last: usize, origin: Origin) -> Option<()>
        ensures { self.new.changes ≡ self.old.changes }
    {
        let p = self.paragraph(first).ok()?;
        let q = self.paragraph(last).ok()?;
        let target = match origin {
            Origin::First(number) => Target::First(self.titles.get(number)?.handle),
            Origin::After(number) => Target::After(self.paragraph(number).ok()?),
        };
        self.put_range(p, q, target).ok()
    }

    fn restore_mark(&mut self, name: &str, former: Option<usize>) -> Option<()>
        ensures { self.new.changes ≡ self.old.changes }
    {
        match former {
            Some(number) => {
                *self.bookmarks.get_mut(name)? = number;
            }
            None => {
                let _ = self.bookmarks.remove(name)?;
            }
        }
        Some(())
    }
}
