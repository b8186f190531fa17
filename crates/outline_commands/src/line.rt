//! Lines of input and their parser.

ghost use Rattle.std.specs.Prelude.{◌≡◌, IfOk};
ghost use Rattle.std.specs.Str.Parse.{digits_value, without_leading_plus};

use crate::refusal::Refusal;
use line_programs::MAX_LINE;
use std::str;

/// A command and its words, in order.
#[derive(Clone, Copy, PartialEq, Eq)]
pub enum Line<'a> {
    Blank,
    Document(&'a str),
    Add(&'a str, &'a str),
    After(usize, &'a str),
    Before(usize, &'a str),
    Edit(usize, &'a str),
    Delete(usize),
    Move(usize, usize, Place<'a>),
    Split(usize, &'a str),
    Join(&'a str, &'a str),
    Mark(&'a str, usize),
    Go(&'a str),
    Undo,
    Renumber,
    Print(&'a str),
    Back(&'a str),
    List,
}

/// Where a range is moved.
#[derive(Clone, Copy, PartialEq, Eq)]
pub enum Place<'a> {
    After(usize),
    First(&'a str),
    Last(&'a str),
}

/// Parses words from the left and returns the first error.
pub fn parse(line: &[u8]) -> Result<Line<'_>, Refusal> {
    if line.len() > MAX_LINE {
        return Err(Refusal::BadText);
    }
    match str::from_utf8(line) {
        Ok(text) if !text.chars().any(|c| c.is_control()) => parse_text(text),
        _ => Err(Refusal::BadText),
    }
}

fn parse_text(text: &str) -> Result<Line<'_>, Refusal> {
    let Ok((command, rest)) = next_word(text) else {
        return Ok(Line::Blank);
    };
    match command {
        "document" => Ok(Line::Document(last_word(rest)?)),
        "go" => Ok(Line::Go(last_word(rest)?)),
        "print" => Ok(Line::Print(last_word(rest)?)),
        "back" => Ok(Line::Back(last_word(rest)?)),
        "undo" => end_line(rest, Line::Undo),
        "renumber" => end_line(rest, Line::Renumber),
        "list" => end_line(rest, Line::List),
        _ => parse_change(command, rest),
    }
}

fn parse_change<'a>(command: &'a str, rest: &'a str) -> Result<Line<'a>, Refusal> {
    match command {
        "add" => {
            let (name, rest) = next_word(rest)?;
            Ok(Line::Add(name, last_words(rest)?))
        }
        "after" | "before" | "edit" => parse_text_at(command, rest),
        "delete" => Ok(Line::Delete(last_number(rest)?)),
        "move" => parse_move(rest),
        "split" => {
            let (number, rest) = next_number(rest)?;
            Ok(Line::Split(number, last_word(rest)?))
        }
        "join" => {
            let (name, rest) = next_word(rest)?;
            Ok(Line::Join(name, last_word(rest)?))
        }
        "mark" => {
            let (name, rest) = next_word(rest)?;
            Ok(Line::Mark(name, last_number(rest)?))
        }
        _ => Err(Refusal::UnknownCommand),
    }
}

fn parse_text_at<'a>(command: &'a str, rest: &'a str) -> Result<Line<'a>, Refusal> {
    let (number, rest) = next_number(rest)?;
    let text = last_words(rest)?;
    match command {
        "after" => Ok(Line::After(number, text)),
        "before" => Ok(Line::Before(number, text)),
        _ => Ok(Line::Edit(number, text)),
    }
}

fn parse_move(rest: &str) -> Result<Line<'_>, Refusal> {
    let (first, rest) = next_number(rest)?;
    let (last, rest) = next_number(rest)?;
    let (place, rest) = next_word(rest)?;
    match place {
        "after" => Ok(Line::Move(first, last, Place::After(last_number(rest)?))),
        "first" => Ok(Line::Move(first, last, Place::First(last_word(rest)?))),
        "last" => Ok(Line::Move(first, last, Place::Last(last_word(rest)?))),
        _ => Err(Refusal::UnknownPlace),
    }
}

fn next_word(text: &str) -> Result<(&str, &str), Refusal> {
    let text = text.trim_start();
    if text.is_empty() {
        return Err(Refusal::MissingWord);
    }
    match text.split_once(char::is_whitespace) {
        Some(pair) => Ok(pair),
        None => Ok((text, "")),
    }
}

fn next_number(text: &str) -> Result<(usize, &str), Refusal> {
    let (word, rest) = next_word(text)?;
    Ok((parse_number(word)?, rest))
}

fn last_word(text: &str) -> Result<&str, Refusal> {
    let (word, rest) = next_word(text)?;
    end_line(rest, word)
}

fn last_number(text: &str) -> Result<usize, Refusal> {
    let (number, rest) = next_number(text)?;
    end_line(rest, number)
}

fn last_words(text: &str) -> Result<&str, Refusal> {
    let text = text.trim();
    if text.is_empty() {
        return Err(Refusal::MissingWord);
    }
    Ok(text)
}

fn end_line<T: Drop>(rest: &str, value: T) -> Result<T, Refusal> {
    if rest.trim_start().is_empty() {
        Ok(value)
    } else {
        Err(Refusal::ExtraWord)
    }
}

fn parse_number(word: &str) -> Result<usize, Refusal>
    ensures { IfOk result (λ n. n ≡ digits_value 10 (without_leading_plus word.now)) }
{
    if !word.bytes().all(|byte| byte.is_ascii_digit()) {
        return Err(Refusal::BadNumber);
    }
    word.parse::<usize>().or(Err(Refusal::BadNumber))
}
