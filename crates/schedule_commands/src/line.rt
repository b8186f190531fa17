//! Commands.

use crate::refusal::Refusal;
use line_programs::MAX_LINE;
use std::str;

#[derive(Clone, Copy, PartialEq, Eq)]
pub enum Line<'a> {
    Blank,
    /// `spawn NAME PRIORITY`
    Spawn(&'a str, u8),
    /// `run N`
    Run(u32),
    /// `block NAME EVENT`
    Block(&'a str, &'a str),
    /// `wake EVENT`: all that wait go on.
    Wake(&'a str),
    /// `kill NAME`
    Kill(&'a str),
}

/// Priority 0 comes first.
pub const MAX_PRIORITY: u32 = 9;

pub const MAX_TURNS: u32 = 1_000_000;

/// Parses a line.
///
/// # Errors
///
/// - `BadText`: over 200 bytes, not UTF-8, or a control character.
/// - `UnknownCommand`: the first word is no command.
/// - `MissingWord`, `ExtraWord`: too few or too many words.
/// - `BadNumber`: a number is not of digits, or too large.
pub fn parse(line: &[u8]) -> Result<Line<'_>, Refusal> {
    if line.len() > MAX_LINE {
        return Err(Refusal::BadText);
    }
    match str::from_utf8(line) {
        Ok(text) if !text.chars().any(|c| c.is_control()) => parse_text(text),
        _ => Err(Refusal::BadText),
    }
}

fn parse_text(text: &str) -> Result<Line<'_>, Refusal> {
    let mut words = text.split_whitespace();
    let Some(command) = words.next() else {
        return Ok(Line::Blank);
    };
    let first = words.next();
    let second = words.next();
    let third = words.next();
    match command {
        "spawn" => {
            let (name, priority) = two_words(first, second, third)?;
            Ok(Line::Spawn(name, parse_priority(priority)?))
        }
        "run" => Ok(Line::Run(parse_number(one_word(first, second)?, MAX_TURNS)?)),
        "block" => {
            let (name, event) = two_words(first, second, third)?;
            Ok(Line::Block(name, event))
        }
        "wake" => Ok(Line::Wake(one_word(first, second)?)),
        "kill" => Ok(Line::Kill(one_word(first, second)?)),
        _ => Err(Refusal::UnknownCommand),
    }
}

fn one_word<'a>(first: Option<&'a str>, second: Option<&'a str>) -> Result<&'a str, Refusal> {
    match (first, second) {
        (None, _) => Err(Refusal::MissingWord),
        (Some(word), None) => Ok(word),
        (Some(_), Some(_)) => Err(Refusal::ExtraWord),
    }
}

fn two_words<'a>(
    first: Option<&'a str>,
    second: Option<&'a str>,
    third: Option<&'a str>,
) -> Result<(&'a str, &'a str), Refusal> {
    match (first, second, third) {
        (Some(a), Some(b), None) => Ok((a, b)),
        (Some(_), Some(_), Some(_)) => Err(Refusal::ExtraWord),
        _ => Err(Refusal::MissingWord),
    }
}

fn parse_number(word: &str, greatest: u32) -> Result<u32, Refusal> {
    if !word.bytes().all(|byte| byte.is_ascii_digit()) {
        return Err(Refusal::BadNumber);
    }
    match word.parse::<u32>() {
        Ok(number) if number <= greatest => Ok(number),
        _ => Err(Refusal::BadNumber),
    }
}

fn parse_priority(word: &str) -> Result<u8, Refusal> {
    let number = parse_number(word, MAX_PRIORITY)?;
    u8::try_from(number).or(Err(Refusal::BadNumber))
}
