//! A model of outlines in plain vectors.

use outline_commands::line::{Line, Place};
use std::alloc::{AllocError, Global};
use std::mem;

/// A document: its name and the numbers of its paragraphs.
#[derive(Drop, Clone)]
pub struct Numbers {
    pub name: &'static str,
    pub numbers: Vec<usize>,
}

/// The state, and the states before each change.
#[derive(Drop)]
pub struct Model {
    documents: Vec<Numbers>,
    count: usize,
    past: Vec<(Vec<Numbers>, usize)>,
    alloc: Global,
}

impl Model {
    pub fn new(alloc: Global) -> Model {
        Model {
            documents: Vec::new(alloc),
            count: 0,
            past: Vec::new(alloc),
            alloc,
        }
    }

    pub fn documents(&self) -> &[Numbers] {
        &self.documents
    }

    /// How many paragraphs were inserted.
    pub fn count(&self) -> usize {
        self.count
    }

    /// Executes a command and returns whether it is accepted.
    pub fn execute(&mut self, line: Line<'static>) -> Result<bool, AllocError> {
        let former = (self.documents.clone()?, self.count);
        let is_accepted = self.change(line)?;
        match line {
            Line::Renumber | Line::Undo => {}
            _ if is_accepted => self.past.push(former)?,
            _ => (self.documents, self.count) = former,
        }
        Ok(is_accepted)
    }

    // A command that is not accepted may change the model.
    fn change(&mut self, line: Line<'static>) -> Result<bool, AllocError> {
        match line {
            Line::Document(name) => self.create(name, Vec::new(self.alloc)),
            Line::Add(name, _) => self.insert(Place::Last(name)),
            Line::After(number, _) => self.insert(Place::After(number)),
            Line::Before(number, _) => {
                let is_accepted = self.insert(Place::After(number))?;
                let range = self.take(number, number)?;
                Ok(is_accepted && self.put(&range, Place::After(self.count))?)
            }
            Line::Delete(number) => Ok(!self.take(number, number)?.is_empty()),
            Line::Move(first, last, place) => {
                let range = self.take(first, last)?;
                Ok(!range.is_empty() && self.put(&range, place)?)
            }
            Line::Split(number, name) => {
                let range = self.take(number, self.last_of(number))?;
                Ok(!range.is_empty() && self.create(name, range)?)
            }
            Line::Join(name, other) => self.join(name, other),
            Line::Undo => Ok(self.undo()),
            _ => Ok(true),
        }
    }

    fn create(&mut self, name: &'static str, numbers: Vec<usize>) -> Result<bool, AllocError> {
        if self.documents.iter().any(|document| document.name == name) {
            return Ok(false);
        }
        self.documents.push(Numbers { name, numbers })?;
        Ok(true)
    }

    fn insert(&mut self, place: Place<'static>) -> Result<bool, AllocError> {
        self.count = self.count.saturating_add(1);
        self.put(&[self.count], place)
    }

    fn put(&mut self, range: &[usize], place: Place<'static>) -> Result<bool, AllocError> {
        for document in &mut self.documents {
            if let Some(index) = index_of(document, place) {
                let mut numbers = Vec::new(self.alloc);
                numbers.extend_from_slice(document.numbers.get(..index).unwrap_or(&[]))?;
                numbers.extend_from_slice(range)?;
                numbers.extend_from_slice(document.numbers.get(index..).unwrap_or(&[]))?;
                document.numbers = numbers;
                return Ok(true);
            }
        }
        Ok(false)
    }

    // Returns no numbers if they are not a range.
    fn take(&mut self, first: usize, last: usize) -> Result<Vec<usize>, AllocError> {
        let mut range = Vec::new(self.alloc);
        for document in &mut self.documents {
            let start = document.numbers.iter().position(|number| *number == first);
            let end = document.numbers.iter().position(|number| *number == last);
            if let (Some(start), Some(end)) = (start, end) {
                range.extend_from_slice(document.numbers.get(start..=end).unwrap_or(&[]))?;
                document.numbers.retain(|number| !range.contains(number));
            }
        }
        Ok(range)
    }

    // 0 if there is none.
    fn last_of(&self, number: usize) -> usize {
        for document in &self.documents {
            if document.numbers.contains(&number) {
                return document.numbers.last().copied().unwrap_or(0);
            }
        }
        0
    }

    fn join(&mut self, name: &'static str, other: &'static str) -> Result<bool, AllocError> {
        for document in &mut self.documents {
            if document.name == other && name != other {
                let range = mem::replace(&mut document.numbers, Vec::new(self.alloc));
                return self.put(&range, Place::Last(name));
            }
        }
        Ok(false)
    }

    fn undo(&mut self) -> bool {
        match self.past.pop() {
            Some(former) => {
                (self.documents, self.count) = former;
                true
            }
            None => false,
        }
    }
}

fn index_of(document: &Numbers, place: Place<'static>) -> Option<usize> {
    match place {
        Place::First(name) if name == document.name => Some(0),
        Place::Last(name) if name == document.name => Some(document.numbers.len()),
        Place::After(k) => {
            let index = document.numbers.iter().position(|number| *number == k)?;
            Some(index.saturating_add(1))
        }
        _ => None,
    }
}
