//! An editor of documents in one arena of links.

ghost use Rattle.std.specs.Prelude.{◌≡◌, ◌+◌, IfNone, IfOk, OnErr, OnOk, vec_len};
ghost use Rattle.outline_commands.specs.Changes.{IsUnchangedIfRefused};

use crate::command_error::CommandError;
use crate::line::Place;
use crate::refusal::Refusal;
use crate::undo::{Change, Origin};
use arena_ptr::PtrKey;
use chain_traits::ChainArenaTrait;
use documents::{Document, Documents, Entry};
use std::alloc::{AllocError, Global};
use std::collections::HashMap;

#[derive(Drop)]
pub struct Paragraph {
    pub number: usize,
    pub text: String,
}

#[derive(Drop)]
pub struct Title<P: PtrKey> {
    pub name: String,
    pub handle: Document<P>,
}

#[derive(Clone, Copy)]
pub struct Numbered<P: PtrKey> {
    pub pointer: P,
    pub is_deleted: bool,
}

#[derive(Clone, Copy)]
pub enum Target<P: PtrKey> {
    After(P),
    First(Document<P>),
    Last(Document<P>),
}

/// An editor over any arena of links. A refused command changes nothing.
///
/// Documents and paragraphs are numbered in order of creation, paragraphs from 1. Pointers are only
/// in `paragraphs`, `titles` and `deleted`, the document of deleted paragraphs.
#[derive(Drop)]
pub struct Editor<P: PtrKey, A: ChainArenaTrait<P, Entry<Paragraph>> + Drop> {
    pub outline: Documents<P, Paragraph, A>,
    pub deleted: Document<P>,
    pub titles: Vec<Title<P>>,
    pub paragraphs: Vec<Numbered<P>>,
    pub names: HashMap<String, usize>,
    pub bookmarks: HashMap<String, usize>,
    pub changes: Vec<Change>,
    pub alloc: Global,
}

impl<P: PtrKey, A: ChainArenaTrait<P, Entry<Paragraph>> + Drop> Editor<P, A> {
    pub fn new(alloc: Global) -> Result<Self, AllocError> {
        let mut outline = Documents::new(alloc);
        match outline.new_list() {
            Ok(deleted) => Ok(Editor {
                outline,
                deleted,
                titles: Vec::new(alloc),
                paragraphs: Vec::new(alloc),
                names: HashMap::new(alloc),
                bookmarks: HashMap::new(alloc),
                changes: Vec::new(alloc),
                alloc,
            }),
            Err(_) => Err(AllocError),
        }
    }

    pub fn document(&self, name: &str) -> Result<Document<P>, Refusal> {
        match self.names.get(name) {
            Some(number) => match self.titles.get(*number) {
                Some(title) => Ok(title.handle),
                None => Err(Refusal::UnknownDocument),
            },
            None => Err(Refusal::UnknownDocument),
        }
    }

    pub fn paragraph(&self, number: usize) -> Result<P, Refusal> {
        let Some(index) = number.checked_sub(1) else {
            return Err(Refusal::UnknownParagraph);
        };
        match self.paragraphs.get(index) {
            Some(numbered) if numbered.is_deleted => Err(Refusal::DeletedParagraph),
            Some(numbered) => Ok(numbered.pointer),
            None => Err(Refusal::UnknownParagraph),
        }
    }

    /// Returns the document of a paragraph, or `None` if it is deleted.
    pub fn document_number(&self, p: P) -> Option<usize> {
        let document = self.outline.list_of(p)?;
        self.titles
            .iter()
            .position(|title| title.handle.head.is_same(document.head))
    }

    fn origin(&self, p: P) -> Result<Origin, Refusal> {
        match self.outline.prev(p) {
            Some(q) => match self.outline.get(q) {
                Some(paragraph) => Ok(Origin::After(paragraph.number)),
                None => Err(Refusal::UnknownParagraph),
            },
            None => match self.document_number(p) {
                Some(number) => Ok(Origin::First(number)),
                None => Err(Refusal::UnknownParagraph),
            },
        }
    }

    pub fn create(&mut self, name: &str) -> Result<(), CommandError>
        ensures refused { IsUnchangedIfRefused result self.old self.new }
        ensures recorded { OnOk result (vec_len self.new.changes ≡ vec_len self.old.changes + 1) }
    {
        self.refuse_known(name)?;
        self.changes.reserve(1)?;
        let Ok(handle) = self.outline.new_list() else {
            return Err(CommandError::Memory);
        };
        self.push_title(name, handle)?;
        self.changes.push(Change::Document)?;
        Ok(())
    }

    fn refuse_known(&self, name: &str) -> Result<(), Refusal> {
        if self.names.contains_key(name) {
            return Err(Refusal::NameInUse);
        }
        Ok(())
    }

    fn push_title(&mut self, name: &str, handle: Document<P>) -> Result<(), AllocError>
        ensures { self.new.changes ≡ self.old.changes }
    {
        let key = String::from_str(self.alloc, name)?;
        let name = String::from_str(self.alloc, name)?;
        self.names.insert(key, self.titles.len())?;
        self.titles.push(Title { name, handle })?;
        Ok(())
    }

    /// Inserts a paragraph at the end of a document and returns its number.
    pub fn add(&mut self, name: &str, text: &str) -> Result<usize, CommandError>
        ensures refused { IsUnchangedIfRefused result self.old self.new }
        ensures recorded { OnOk result (vec_len self.new.changes ≡ vec_len self.old.changes + 1) }
        ensures number { IfOk result (λ n. n ≡ vec_len self.old.paragraphs + 1) }
    {
        let document = self.document(name)?;
        let paragraph = self.new_paragraph(text)?;
        match self.outline.push_back(document, paragraph) {
            Ok(p) => Ok(self.push_paragraph(p)?),
            Err(_) => Err(CommandError::Memory),
        }
    }

    pub fn insert_after(&mut self, number: usize, text: &str) -> Result<usize, CommandError>
        ensures refused { IsUnchangedIfRefused result self.old self.new }
        ensures recorded { OnOk result (vec_len self.new.changes ≡ vec_len self.old.changes + 1) }
        ensures number { IfOk result (λ n. n ≡ vec_len self.old.paragraphs + 1) }
    {
        let p = self.paragraph(number)?;
        let paragraph = self.new_paragraph(text)?;
        match self.outline.insert_after(p, paragraph) {
            Ok(p) => Ok(self.push_paragraph(p)?),
            Err(_) => Err(CommandError::Memory),
        }
    }

    pub fn insert_before(&mut self, number: usize, text: &str) -> Result<usize, CommandError>
        ensures refused { IsUnchangedIfRefused result self.old self.new }
        ensures recorded { OnOk result (vec_len self.new.changes ≡ vec_len self.old.changes + 1) }
        ensures number { IfOk result (λ n. n ≡ vec_len self.old.paragraphs + 1) }
    {
        let p = self.paragraph(number)?;
        let paragraph = self.new_paragraph(text)?;
        match self.outline.insert_before(p, paragraph) {
            Ok(p) => Ok(self.push_paragraph(p)?),
            Err(_) => Err(CommandError::Memory),
        }
    }

    fn new_paragraph(&self, text: &str) -> Result<Paragraph, AllocError> {
        Ok(Paragraph {
            number: self.paragraphs.len().saturating_add(1),
            text: String::from_str(self.alloc, text)?,
        })
    }

    fn push_paragraph(&mut self, pointer: P) -> Result<usize, AllocError>
        ensures recorded { OnOk result (vec_len self.new.changes ≡ vec_len self.old.changes + 1) }
        ensures number { IfOk result (λ n. n ≡ vec_len self.old.paragraphs + 1) }
    {
        self.paragraphs.push(Numbered {
            pointer,
            is_deleted: false,
        })?;
        self.changes.push(Change::Insertion)?;
        Ok(self.paragraphs.len())
    }

    pub fn edit(&mut self, number: usize, text: &str) -> Result<(), CommandError>
        ensures refused { IsUnchangedIfRefused result self.old self.new }
        ensures recorded { OnOk result (vec_len self.new.changes ≡ vec_len self.old.changes + 1) }
    {
        let p = self.paragraph(number)?;
        let text = String::from_str(self.alloc, text)?;
        match self.outline.replace(p, Paragraph { number, text }) {
            Some(former) => {
                self.changes.push(Change::Edit(number, former.text))?;
                Ok(())
            }
            None => Err(CommandError::Refused(Refusal::UnknownParagraph)),
        }
    }

    pub fn delete(&mut self, number: usize) -> Result<(), CommandError>
        ensures refused { IsUnchangedIfRefused result self.old self.new }
        ensures recorded { OnOk result (vec_len self.new.changes ≡ vec_len self.old.changes + 1) }
    {
        let p = self.paragraph(number)?;
        let origin = self.origin(p)?;
        if self.outline.move_to_back(p, self.deleted).is_none() {
            return Err(CommandError::Refused(Refusal::UnknownParagraph));
        }
        self.set_deleted(number, true);
        self.changes.push(Change::Deletion(number, origin))?;
        Ok(())
    }

    pub fn set_deleted(&mut self, number: usize, is_deleted: bool)
        ensures { self.new.changes ≡ self.old.changes }
    {
        if let Some(numbered) = self.paragraphs.get_mut(number.saturating_sub(1)) {
            numbered.is_deleted = is_deleted;
        }
    }

    pub fn move_range(
        &mut self,
        first: usize,
        last: usize,
        place: Place<'_>,
    ) -> Result<(), CommandError>
        ensures refused { IsUnchangedIfRefused result self.old self.new }
        ensures recorded { OnOk result (vec_len self.new.changes ≡ vec_len self.old.changes + 1) }
    {
        let p = self.paragraph(first)?;
        let q = self.paragraph(last)?;
        let target = self.target(place)?;
        let origin = self.origin(p)?;
        self.put_range(p, q, target)?;
        self.changes.push(Change::Move(first, last, origin))?;
        Ok(())
    }

    fn target(&self, place: Place<'_>) -> Result<Target<P>, Refusal> {
        match place {
            Place::After(number) => Ok(Target::After(self.paragraph(number)?)),
            Place::First(name) => Ok(Target::First(self.document(name)?)),
            Place::Last(name) => Ok(Target::Last(self.document(name)?)),
        }
    }

    pub fn put_range(&mut self, first: P, last: P, target: Target<P>) -> Result<(), Refusal>
        ensures err { OnErr result (self.new ≡ self.old) }
        ensures changes { self.new.changes ≡ self.old.changes }
    {
        let moved = match target {
            Target::After(q) => self.put_range_after(first, last, q),
            Target::First(document) => self.put_range_first(first, last, document),
            Target::Last(document) => self.put_range_last(first, last, document),
        };
        match moved {
            Some(()) => Ok(()),
            None => Err(self.range_refusal(first, last)),
        }
    }

    fn put_range_after(&mut self, first: P, last: P, q: P) -> Option<()>
        ensures none { IfNone result (self.new ≡ self.old) }
        ensures changes { self.new.changes ≡ self.old.changes }
    {
        if self.outline.is_range_without(first, last, q) {
            self.outline.move_range_after(first, last, q)
        } else {
            None
        }
    }

    fn put_range_first(&mut self, first: P, last: P, document: Document<P>) -> Option<()>
        ensures none { IfNone result (self.new ≡ self.old) }
        ensures changes { self.new.changes ≡ self.old.changes }
    {
        if self.outline.is_range_without(first, last, document.head) {
            self.outline.move_range_to_front(first, last, document)
        } else {
            None
        }
    }

    fn put_range_last(&mut self, first: P, last: P, document: Document<P>) -> Option<()>
        ensures none { IfNone result (self.new ≡ self.old) }
        ensures changes { self.new.changes ≡ self.old.changes }
    {
        if self.outline.is_range_without(first, last, document.head) {
            self.outline.move_range_to_back(first, last, document)
        } else {
            None
        }
    }

    fn range_refusal(&self, first: P, last: P) -> Refusal {
        match self.outline.list_of(first) {
            Some(document) if self.outline.is_range_without(first, last, document.head) => {
                Refusal::InsideTheRange
            }
            _ => Refusal::NotARange,
        }
    }

    /// Moves a paragraph and those after it to a new document.
    pub fn split(&mut self, number: usize, name: &str) -> Result<(), CommandError>
        ensures refused { IsUnchangedIfRefused result self.old self.new }
        ensures recorded { OnOk result (vec_len self.new.changes ≡ vec_len self.old.changes + 1) }
    {
        let p = self.paragraph(number)?;
        self.refuse_known(name)?;
        let Some(former) = self.document_number(p) else {
            return Err(CommandError::Refused(Refusal::UnknownParagraph));
        };
        let Ok(Some(handle)) = self.outline.split_at(p) else {
            return Err(CommandError::Memory);
        };
        self.push_title(name, handle)?;
        self.changes.push(Change::Split(former))?;
        Ok(())
    }

    /// Moves all paragraphs of `other` to the end of `name`.
    pub fn join(&mut self, name: &str, other: &str) -> Result<(), CommandError>
        ensures refused { IsUnchangedIfRefused result self.old self.new }
        ensures recorded { OnOk result (vec_len self.new.changes ≡ vec_len self.old.changes + 1) }
    {
        let document = self.document(name)?;
        let emptied = self.document(other)?;
        let change = self.move_of_all(other, emptied);
        if self.outline.join(document, emptied).is_none() {
            return Err(CommandError::Refused(Refusal::SameDocument));
        }
        self.changes.push(change)?;
        Ok(())
    }

    fn move_of_all(&self, name: &str, document: Document<P>) -> Change {
        let (Some(p), Some(q)) = (self.outline.first(document), self.outline.last(document)) else {
            return Change::Nothing;
        };
        match (self.number_of(p), self.number_of(q), self.names.get(name)) {
            (Some(first), Some(last), Some(number)) => {
                Change::Move(first, last, Origin::First(*number))
            }
            _ => Change::Nothing,
        }
    }

    pub fn number_of(&self, p: P) -> Option<usize> {
        match self.outline.get(p) {
            Some(paragraph) => Some(paragraph.number),
            None => None,
        }
    }

    pub fn mark(&mut self, name: &str, number: usize) -> Result<(), CommandError>
        ensures refused { IsUnchangedIfRefused result self.old self.new }
        ensures recorded { OnOk result (vec_len self.new.changes ≡ vec_len self.old.changes + 1) }
    {
        let _ = self.paragraph(number)?;
        let key = String::from_str(self.alloc, name)?;
        let name = String::from_str(self.alloc, name)?;
        let former = self.bookmarks.insert(key, number)?;
        self.changes.push(Change::Mark(name, former))?;
        Ok(())
    }
}
