//! Reads of paragraphs, documents and bookmarks.

use crate::command_error::CommandError;
use crate::editor::{Editor, Paragraph, Title};
use crate::refusal::Refusal;
use arena_ptr::PtrKey;
use chain_traits::ChainArenaTrait;
use documents::{Document, Entry};
use std::alloc::AllocError;

impl<P: PtrKey, A: ChainArenaTrait<P, Entry<Paragraph>> + Drop> Editor<P, A> {
    pub fn titles(&self) -> &[Title<P>] {
        &self.titles
    }

    pub fn numbers(&self, document: Document<P>) -> Result<Vec<usize>, AllocError> {
        let mut numbers = Vec::new(self.alloc);
        let mut paragraph = self.outline.first(document);
        for _ in 0..self.outline.len() {
            let Some(p) = paragraph else {
                break;
            };
            self.push_number(p, &mut numbers)?;
            paragraph = self.outline.next(p);
        }
        Ok(numbers)
    }

    pub fn numbers_back(&self, document: Document<P>) -> Result<Vec<usize>, AllocError> {
        let mut numbers = Vec::new(self.alloc);
        let mut paragraph = self.outline.last(document);
        for _ in 0..self.outline.len() {
            let Some(p) = paragraph else {
                break;
            };
            self.push_number(p, &mut numbers)?;
            paragraph = self.outline.prev(p);
        }
        Ok(numbers)
    }

    fn push_number(&self, p: P, numbers: &mut Vec<usize>) -> Result<(), AllocError> {
        if let Some(number) = self.number_of(p) {
            numbers.push(number)?;
        }
        Ok(())
    }

    pub fn text(&self, number: usize) -> Result<&str, Refusal> {
        let p = self.paragraph(number)?;
        match self.outline.get(p) {
            Some(paragraph) => Ok(&paragraph.text),
            None => Err(Refusal::UnknownParagraph),
        }
    }

    /// Returns the number and the document of a bookmarked paragraph.
    pub fn bookmark(&self, name: &str) -> Result<(usize, &str), Refusal> {
        let Some(number) = self.bookmarks.get(name) else {
            return Err(Refusal::UnknownBookmark);
        };
        let p = self.paragraph(*number)?;
        let Some(document) = self.document_number(p) else {
            return Err(Refusal::UnknownParagraph);
        };
        match self.titles.get(document) {
            Some(title) => Ok((*number, &title.name)),
            None => Err(Refusal::UnknownParagraph),
        }
    }
}
