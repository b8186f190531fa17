//! Tests of lines, random changes and a fault. Those of `schedule` have the other faults.

mod model;

use crate::status::edit_input;
use model::Model;
use outline_commands::command_error::CommandError;
use outline_commands::line::{Line, Place, parse};
use outline_commands::refusal::Refusal;
use outline_commands::session::{Session, ToolSession};
use std::alloc::{AllocError, Global};
use std::io;
use std::io::{ErrorKind, Sink};
use std::process::{ExitCode, Termination};

const LINES: [(&str, Result<Line<'static>, Refusal>); 37] = [
    ("", Ok(Line::Blank)),
    (" \u{3000} ", Ok(Line::Blank)),
    ("document a", Ok(Line::Document("a"))),
    (
        " add\u{a0}a  two   words ",
        Ok(Line::Add("a", "two   words")),
    ),
    ("after 7 undo", Ok(Line::After(7, "undo"))),
    ("before 007 1", Ok(Line::Before(7, "1"))),
    ("edit 0 \u{e9}", Ok(Line::Edit(0, "\u{e9}"))),
    (
        "delete 18446744073709551615",
        Ok(Line::Delete(18_446_744_073_709_551_615)),
    ),
    ("move 1 2 after 3", Ok(Line::Move(1, 2, Place::After(3)))),
    ("move 1 2 first 3", Ok(Line::Move(1, 2, Place::First("3")))),
    (
        "move 2 1 last last",
        Ok(Line::Move(2, 1, Place::Last("last"))),
    ),
    ("split 4 b", Ok(Line::Split(4, "b"))),
    ("join a b", Ok(Line::Join("a", "b"))),
    ("mark here 2", Ok(Line::Mark("here", 2))),
    ("go here", Ok(Line::Go("here"))),
    ("undo ", Ok(Line::Undo)),
    ("renumber", Ok(Line::Renumber)),
    ("print print", Ok(Line::Print("print"))),
    ("back a", Ok(Line::Back("a"))),
    ("list", Ok(Line::List)),
    ("Undo", Err(Refusal::UnknownCommand)),
    ("add a ", Err(Refusal::MissingWord)),
    ("after", Err(Refusal::MissingWord)),
    ("edit 1", Err(Refusal::MissingWord)),
    ("move 1 2 after", Err(Refusal::MissingWord)),
    ("mark 1", Err(Refusal::MissingWord)),
    ("undo 1", Err(Refusal::ExtraWord)),
    ("document a b", Err(Refusal::ExtraWord)),
    ("delete 1 x", Err(Refusal::ExtraWord)),
    ("move 1 2 first a b", Err(Refusal::ExtraWord)),
    ("delete x 1", Err(Refusal::BadNumber)),
    ("split -1 b", Err(Refusal::BadNumber)),
    ("mark a +1", Err(Refusal::BadNumber)),
    ("move 1 2 after a", Err(Refusal::BadNumber)),
    ("delete 18446744073709551616", Err(Refusal::BadNumber)),
    ("move 1 2 before 3", Err(Refusal::UnknownPlace)),
    ("list\r", Err(Refusal::BadText)),
];

fn wrong_rows() -> usize {
    LINES
        .iter()
        .filter(|row| parse(row.0.as_bytes()) != row.1)
        .count()
}

#[test]
fn lines_are_parsed(rt: HostRuntime) {
    assert_eq!(rt; wrong_rows(), 0);
    assert!(rt; parse(b"go \xff") == Err(Refusal::BadText));
    assert!(rt; parse(&[b' '; 200]) == Ok(Line::Blank));
    assert!(rt; parse(&[b' '; 201]) == Err(Refusal::BadText));
}

#[derive(Drop)]
struct Random {
    state: u64,
}

impl Random {
    fn up_to(&mut self, greatest: usize) -> usize {
        self.state = self
            .state
            .wrapping_mul(6_364_136_223_846_793_005)
            .wrapping_add(1_442_695_040_888_963_407);
        let number = usize::try_from(self.state >> 33).unwrap_or(0);
        number.checked_rem(greatest.saturating_add(1)).unwrap_or(0)
    }

    fn name(&mut self) -> &'static str {
        match self.up_to(3) {
            0 => "a",
            1 => "b",
            2 => "c",
            _ => "d",
        }
    }

    fn place(&mut self, count: usize) -> Place<'static> {
        match self.up_to(3) {
            0 => Place::First(self.name()),
            1 => Place::Last(self.name()),
            _ => Place::After(self.up_to(count)),
        }
    }

    fn line(&mut self, count: usize) -> Line<'static> {
        let number = self.up_to(count.saturating_add(1));
        match self.up_to(15) {
            0 => Line::Document(self.name()),
            1..=3 => Line::Add(self.name(), "x"),
            4 => Line::After(number, "x"),
            5 => Line::Before(number, "x"),
            6 => Line::Delete(number),
            7 => Line::Split(number, self.name()),
            8 => Line::Join(self.name(), self.name()),
            9 => Line::Renumber,
            10 | 11 => Line::Undo,
            12 | 13 => Line::Move(number, number, self.place(count)),
            _ => Line::Move(number, self.up_to(count), self.place(count)),
        }
    }
}

fn agrees(session: &ToolSession, model: &Model) -> Result<bool, AllocError> {
    let editor = session.editor();
    if editor.titles().len() != model.documents().len() {
        return Ok(false);
    }
    for (title, document) in editor.titles().iter().zip(model.documents()) {
        let numbers = editor.numbers(title.handle)?;
        let mut back = editor.numbers_back(title.handle)?;
        back.reverse();
        if title.name.as_str() != document.name || numbers != document.numbers || back != numbers {
            return Ok(false);
        }
    }
    Ok(true)
}

// Counts differences during random commands and while all are undone.
fn differences(alloc: Global, seed: u64, steps: usize) -> Result<usize, AllocError> {
    let mut random = Random { state: seed };
    let mut session: ToolSession = Session::new(alloc)?;
    let mut model = Model::new(alloc);
    let mut differences: usize = 0;
    for step in 0..steps.saturating_mul(2) {
        let line = if step < steps {
            random.line(model.count())
        } else {
            Line::Undo
        };
        let is_accepted = match session.execute(line) {
            Ok(()) => true,
            Err(CommandError::Refused(_)) => false,
            Err(CommandError::Memory) => return Err(AllocError),
        };
        if is_accepted != model.execute(line)? || !agrees(&session, &model)? {
            differences = differences.saturating_add(1);
        }
    }
    Ok(differences)
}

#[test]
fn random_changes_are_those_of_the_model(rt: HostRuntime) {
    for seed in 0..8 {
        assert!(rt;
            differences(rt.alloc(), seed, 200) == Ok(0),
            "seed {}",
            seed
        );
    }
}

#[test]
fn a_fault_ends_the_run_with_status_2(rt: HostRuntime) {
    let alloc = rt.alloc();
    let mut errors = Vec::new(alloc);
    let refused: io::Result<Sink> = Err(io::Error::from(ErrorKind::OutOfMemory));
    let status = edit_input(alloc, &mut "list\n".as_bytes(), refused, &mut errors);
    let is_reported = status.report(&rt) == ExitCode::from(2)
        && errors.as_slice() == b"outline: no memory\n".as_slice();
    assert!(rt; is_reported);
}
