//! Words of lines.
ghost use Rattle.std.specs.Prelude.{◌≡◌};
ghost use Rattle.chain_commands.specs.Words.{IsFirstWord, IsSplitAtByte, number_of, index_word, pointer_of};

use arena_ptr::{Gen32, Inx32, PtrKey, ToolPtr};
use memchr::memchr;

#[inline(always)]
pub fn next_word(text: &[u8]) -> Option<(&[u8], &[u8])>
    ensures { IsFirstWord (λ part. part.now) result text.now }
{
    let (_, text) = text.split_at(text.iter().take_while(|c| **c == b' ').count());
    if text.is_empty() {
        return None;
    }
    Some(text.split_at(text.iter().take_while(|c| **c != b' ').count()))
}

#[inline(always)]
fn split_at_byte(byte: u8, text: &[u8]) -> Option<(&[u8], &[u8])>
    ensures { IsSplitAtByte byte (λ part. part.now) result text.now }
{
    let (front, back) = text.split_at(text.iter().take_while(|c| **c != byte).count());
    match back.split_first() {
        Some((_, back)) => Some((front, back)),
        None => None,
    }
}

/// Splits off a line without its line feed.
pub fn next_line(text: &[u8]) -> Option<(&[u8], &[u8])>
    ensures { IsSplitAtByte 10 (λ part. part.now) result text.now }
{
    match memchr(b'\n', text) {
        Some(end) => Some((&text[..end], &text[end + 1..])),
        None => None,
    }
}

/// Parses 1 to 10 digits, up to 4294967295.
#[inline(always)]
pub fn number(word: &[u8]) -> Option<u32>
    ensures { result ≡ number_of word.now }
{
    if word.is_empty() || word.len() > 10 {
        return None;
    }
    let mut value = 0u64;
    for digit in word {
        if !digit.is_ascii_digit() {
            return None;
        }
        value = value * 10 + u64::from(*digit - b'0');
    }
    u32::try_from(value).ok()
}

/// Parses an index of at least 1.
#[inline(always)]
pub fn index(word: &[u8]) -> Option<Inx32>
    ensures { result ≡ index_word word.now }
{
    Inx32::new(number(word)?)
}

/// Parses an index, a dot and a generation.
#[inline(always)]
pub fn pointer(word: &[u8]) -> Option<ToolPtr>
    ensures { result ≡ pointer_of word.now }
{
    let (front, back) = split_at_byte(b'.', word)?;
    Some(ToolPtr::_from_raw(index(front)?, Gen32::new(number(back)?)?))
}
