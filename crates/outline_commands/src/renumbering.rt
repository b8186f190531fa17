//! Renumbering of all documents.

ghost use Rattle.std.specs.Prelude.{◌≡◌, OnErr};

use crate::editor::{Editor, Numbered, Paragraph, Title};
use arena_ptr::PtrKey;
use chain_renumbering::{RenumberChainArenaTrait, Renumbering};
use documents::{Entry, moved_document, renumber};
use std::alloc::AllocError;

impl<P: PtrKey, A: RenumberChainArenaTrait<P, Entry<Paragraph>> + Drop> Editor<P, A> {
    /// Stores the paragraphs of each document one after another; nothing visible changes.
    pub fn renumber(&mut self) -> Result<(), AllocError>
        ensures err { OnErr result (self.new ≡ self.old) }
        ensures changes { self.new.changes ≡ self.old.changes }
    {
        let moved = renumber(&mut self.outline, self.alloc)?;
        if let Some(deleted) = moved_document(&moved, self.deleted) {
            self.deleted = deleted;
        }
        move_titles(&moved, &mut self.titles);
        move_paragraphs(&moved, &mut self.paragraphs);
        Ok(())
    }
}

fn move_titles<P: PtrKey>(moved: &Renumbering<P>, titles: &mut [Title<P>]) {
    for title in titles {
        if let Some(handle) = moved_document(moved, title.handle) {
            title.handle = handle;
        }
    }
}

fn move_paragraphs<P: PtrKey>(moved: &Renumbering<P>, paragraphs: &mut [Numbered<P>]) {
    for numbered in paragraphs {
        if let Some(pointer) = moved.new_pointer(numbered.pointer) {
            numbered.pointer = pointer;
        }
    }
}
