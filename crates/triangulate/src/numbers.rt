//! Numbers.

ghost use Rattle.std.specs.Prelude.{◌≡◌, ◌≤◌, ◌<◌, length, slice_index, IsTrue, IsFalse};
ghost use Rattle.triangulate.specs.RingTexts.{is_space, IsDecimal, IsNumeral, ParsesWord, ParsesNumber, AreSpaces, AreNoSpaces};

#[derive(Clone, Copy, Debug, PartialEq, Eq)]
pub enum LineError {
    NotANumber,
    OddNumber,
    TooLarge,
    Memory,
}

fn is_space(byte: u8) -> bool
    ensures { result ≡ is_space byte }
{
    byte == b' ' || byte == b'\t' || byte == b'\r'
}

pub fn end_of_spaces(line: &[u8], from: usize) -> usize
    requires { from ≤ length line.now }
    ensures order { from ≤ result }
    ensures end { result ≤ length line.now }
    ensures spaces { AreSpaces line.now from result }
    ensures after { result < length line.now → IsFalse (is_space (slice_index line.now result)) }
{
    let mut at = from;
    while at < line.len() && is_space(line[at]) {
        at += 1;
    }
    at
}

fn end_of_word(line: &[u8], from: usize) -> usize
    requires { from ≤ length line.now }
    ensures order { from ≤ result }
    ensures end { result ≤ length line.now }
    ensures word { AreNoSpaces line.now from result }
    ensures after { result < length line.now → IsTrue (is_space (slice_index line.now result)) }
{
    for at in from..line.len() {
        if is_space(line[at]) {
            return at;
        }
    }
    line.len()
}

/// Returns the next number and the end of its word.
///
/// # Errors
///
/// - `OddNumber`: no word is left.
/// - `NotANumber`: the word is not of at most ten digits.
/// - `TooLarge`: beyond 2 ^ 30.
pub fn number_at(line: &[u8], from: usize) -> Result<(i32, usize), LineError>
    requires { from ≤ length line.now }
    ensures { ParsesNumber line.now from result }
{
    let start = end_of_spaces(line, from);
    let end = end_of_word(line, start);
    if start == end {
        return Err(LineError::OddNumber);
    }
    match coordinate(&line[start..end]) {
        Ok(value) => Ok((value, end)),
        Err(error) => Err(error),
    }
}

fn coordinate(word: &[u8]) -> Result<i32, LineError>
    ensures { ParsesWord IsNumeral word.now result }
{
    if word.is_empty() || word[0] != b'-' {
        return magnitude(word);
    }
    match magnitude(&word[1..]) {
        Ok(value) => Ok(-value),
        Err(error) => Err(error),
    }
}

fn magnitude(digits: &[u8]) -> Result<i32, LineError>
    ensures { ParsesWord IsDecimal digits.now result }
{
    if digits.is_empty() || digits.len() > 10 {
        return Err(LineError::NotANumber);
    }
    let mut value = 0u64;
    for digit in digits {
        if !digit.is_ascii_digit() {
            return Err(LineError::NotANumber);
        }
        value = value * 10 + u64::from(*digit - b'0');
    }
    if value > 1 << 30 {
        return Err(LineError::TooLarge);
    }
    Ok(value as i32)
}
