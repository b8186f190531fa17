//! Lines of input.

use line_programs::MAX_LINE;
use std::str;

#[derive(Clone, Copy, PartialEq, Eq)]
pub enum Line<'a> {
    Blank,
    Bad,
    /// `a = b`.
    Equate(&'a str, &'a str),
    /// `a ? b`.
    Compare(&'a str, &'a str),
    Class(&'a str),
    Drop(&'a str),
}

/// A line that is too long, not UTF-8, or has control characters is bad.
pub fn parse(line: &[u8]) -> Line<'_> {
    if line.len() > MAX_LINE {
        return Line::Bad;
    }
    match str::from_utf8(line) {
        Ok(text) if !text.chars().any(|c| c.is_control()) => parse_text(text),
        _ => Line::Bad,
    }
}

fn parse_text(text: &str) -> Line<'_> {
    let mut words = text.split_whitespace();
    match (words.next(), words.next(), words.next(), words.next()) {
        (None, _, _, _) => Line::Blank,
        (Some(call), Some(a), None, _) => parse_call(call, a),
        (Some(a), Some(sign), Some(b), None) => parse_relation(a, sign, b),
        _ => Line::Bad,
    }
}

fn parse_call<'a>(call: &'a str, a: &'a str) -> Line<'a> {
    if is_sign(a) {
        return Line::Bad;
    }
    match call {
        "class" => Line::Class(a),
        "drop" => Line::Drop(a),
        _ => Line::Bad,
    }
}

fn parse_relation<'a>(a: &'a str, sign: &'a str, b: &'a str) -> Line<'a> {
    if is_sign(a) || is_sign(b) {
        return Line::Bad;
    }
    match sign {
        "=" => Line::Equate(a, b),
        "?" => Line::Compare(a, b),
        _ => Line::Bad,
    }
}

fn is_sign(text: &str) -> bool {
    text == "=" || text == "?"
}
