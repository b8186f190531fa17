//! Commands and their parser.
ghost use Rattle.std.specs.Prelude.{◌≡◌, IfOk, bytes_eq, option_and_then, option_map};
ghost use Rattle.chain_laws.specs.declared.insert_kind.InsertKind.TheVariants.{AtInterlink, AtInterlinkInx, Bridge, BridgeInx};
ghost use Rattle.chain_commands.specs.Words.{generation_of, words_of};
ghost use Rattle.chain_commands.specs.Commands.{by_either, one_word, one_number, one_pointer, two_pointers, three_pointers, pointer_and_number, no_arguments, reset_of, removal, kind_alone, kind_beside, kind_between, insertion, short_command, remaining_command, command_of, line_of};

use crate::command::Command::Change;
use crate::lexer::{index, next_word, number, pointer};
use crate::order::Order;
use arena_ptr::{Gen32, Inx32, ToolPtr};
use chain_arena::{Call, LinkInsertKind};
use std::alloc::{AllocError, Global};

/// A command.
#[derive(Drop)]
pub enum Command {
    Change(Call<ToolPtr, u32>),
    Arrange(Order),
    Show(ToolPtr),
    Chain(ToolPtr),
    Len,
    /// Compresses canonically and lists old and new pointers.
    Moves(bool),
    Transfer(ToolPtr),
    /// Exchanges both arenas.
    Other,
}

/// A parsed line.
#[derive(Drop)]
pub enum Line {
    Blank,
    Bad,
    Good(Command),
}

/// Parses a line; one of more than 200 bytes is `Bad`.
///
/// # Errors
///
/// - `AllocError`: an allocation for `arrange` failed.
pub fn parse(alloc: Global, line: &[u8]) -> Result<Line, AllocError>
    ensures { IfOk result (λ parsed. parsed ≡ line_of line.now) }
{
    if line.len() > 200 {
        return Ok(Line::Bad);
    }
    match next_word(line.strip_suffix(b"\r").unwrap_or(line)) {
        None => Ok(Line::Blank),
        Some((name, arguments)) => match command_of(alloc, name, arguments) {
            Ok(Some(command)) => Ok(Line::Good(command)),
            Ok(None) => Ok(Line::Bad),
            Err(error) => Err(error),
        },
    }
}

fn command_of(alloc: Global, name: &[u8], words: &[u8]) -> Result<Option<Command>, AllocError>
    ensures { IfOk result (λ command. command ≡ command_of name.now (words_of words.now)) }
{
    if is(name, "arrange") {
        return Ok(Order::parse(alloc, words)?.map(Command::Arrange));
    }
    Ok(short_command(name, words))
}

fn short_command(name: &[u8], words: &[u8]) -> Option<Command>
    ensures { result ≡ short_command name.now (words_of words.now) }
{
    match name {
        n if is(n, "add") => insertion(words).map(|(kind, t)| Change(Call::Insert { kind, t })),
        n if is(n, "addwithin") => insertion(words).map(|(kind, t)| Change(Call::InsertWithin {
            kind,
            t,
        })),
        n if is(n, "connect") => two_pointers(words).map(|(p, q)| Change(Call::Connect(p, q))),
        n if is(n, "breakprev") => Some(Change(Call::BreakPrev(one_pointer(words)?))),
        n if is(n, "breaknext") => Some(Change(Call::BreakNext(one_pointer(words)?))),
        n if is(n, "exchange") => two_pointers(words).map(|(p, q)| Change(Call::ExchangeNext(
            p, q,
        ))),
        n if is(n, "reverse") => Some(Change(Call::ReverseChain(one_pointer(words)?))),
        n if is(n, "moveafter") => two_pointers(words).map(|(p, q)| Change(Call::MoveAfter(p, q))),
        n if is(n, "spliceafter") => three_pointers(words).map(|(p, run)| Change(Call::SpliceAfter(
            p, run.0, run.1,
        ))),
        n if is(n, "remove") => Some(Change(removal(words)?)),
        n if is(n, "invalidate") => Some(Change(Call::Invalidate(one_pointer(words)?))),
        n if is(n, "drain") => pointer_and_number(words).map(|(p, take)| Change(Call::DrainChain {
            p,
            take,
        })),
        n if is(n, "clear") => no_arguments(words).map(|()| Change(Call::Clear)),
        n if is(n, "compress") => Some(Change(Call::Compress(reset(words)?))),
        n if is(n, "canonical") => Some(Change(Call::CompressCanonical(reset(words)?))),
        n if is(n, "reserve") => Some(Change(Call::Reserve(one_number(words)? as usize))),
        n if is(n, "setgen") => Some(Change(Call::SetGeneration(one_generation(words)?))),
        n if is(n, "incgen") => no_arguments(words).map(|()| Change(Call::IncGeneration)),
        _ => remaining_command(name, words),
    }
}

fn remaining_command(name: &[u8], words: &[u8]) -> Option<Command>
    ensures { result ≡ remaining_command name.now (words_of words.now) }
{
    match name {
        n if is(n, "show") => Some(Command::Show(one_pointer(words)?)),
        n if is(n, "chain") => Some(Command::Chain(one_pointer(words)?)),
        n if is(n, "len") => no_arguments(words).map(|()| Command::Len),
        n if is(n, "moves") => Some(Command::Moves(reset(words)?)),
        n if is(n, "transfer") => Some(Command::Transfer(one_pointer(words)?)),
        n if is(n, "other") => no_arguments(words).map(|()| Command::Other),
        _ => None,
    }
}

/// With a constant `text`, this compiles to byte comparisons.
#[inline(always)]
fn is(word: &[u8], text: &str) -> bool
    ensures { result ≡ bytes_eq word.now text.now }
{
    let bytes = text.as_bytes();
    if word.len() != bytes.len() {
        return false;
    }
    let mut i = 0;
    while i < bytes.len() {
        if word[i] != bytes[i] {
            return false;
        }
        i += 1;
    }
    true
}

fn insertion(arguments: &[u8]) -> Option<(LinkInsertKind<ToolPtr>, u32)>
    ensures { result ≡ insertion (words_of arguments.now) }
{
    let (name, arguments) = next_word(arguments)?;
    let (first, arguments) = next_word(arguments)?;
    let Some((second, arguments)) = next_word(arguments) else {
        return kind_alone(name).zip(number(first));
    };
    let Some((third, arguments)) = next_word(arguments) else {
        return kind_beside(name, first).zip(number(second));
    };
    no_arguments(arguments)?;
    kind_between(name, first, second).zip(number(third))
}

fn kind_alone(name: &[u8]) -> Option<LinkInsertKind<ToolPtr>>
    ensures { result ≡ kind_alone name.now }
{
    match name {
        b"alone" => Some(LinkInsertKind::Disconnected),
        b"ring" => Some(LinkInsertKind::SingleLinkCyclic),
        _ => None,
    }
}

fn kind_beside(name: &[u8], word: &[u8]) -> Option<LinkInsertKind<ToolPtr>>
    ensures { result ≡ kind_beside name.now word.now }
{
    let p = pointer(word);
    let i = if p.is_some() { None } else { index(word) };
    if is(name, "end") {
        p.map(LinkInsertKind::ChainEnd)
            .or(i.map(LinkInsertKind::ChainEndInx))
    } else if is(name, "start") {
        p.map(LinkInsertKind::ChainStart)
            .or(i.map(LinkInsertKind::ChainStartInx))
    } else if is(name, "after") {
        p.map(LinkInsertKind::NextTo)
            .or(i.map(LinkInsertKind::NextToInx))
    } else if is(name, "before") {
        p.map(LinkInsertKind::PrevTo)
            .or(i.map(LinkInsertKind::PrevToInx))
    } else {
        None
    }
}

fn kind_between(name: &[u8], first: &[u8], second: &[u8]) -> Option<LinkInsertKind<ToolPtr>>
    ensures { result ≡ kind_between name.now first.now second.now }
{
    let p = pointer(first).zip(pointer(second));
    let i = index(first).zip(index(second));
    if is(name, "between") {
        between(p, i)
    } else if is(name, "bridge") {
        bridge(p, i)
    } else {
        None
    }
}

fn between(
    pointers: Option<(ToolPtr, ToolPtr)>,
    indexes: Option<(Inx32, Inx32)>,
) -> Option<LinkInsertKind<ToolPtr>>
    ensures { result ≡ by_either (λ x. AtInterlink x.0 x.1) (λ x. AtInterlinkInx x.0 x.1)
        pointers indexes }
{
    match pointers {
        Some((next_to, prev_to)) => Some(LinkInsertKind::AtInterlink { next_to, prev_to }),
        None => {
            let (next_to, prev_to) = indexes?;
            Some(LinkInsertKind::AtInterlinkInx { next_to, prev_to })
        }
    }
}

fn bridge(
    pointers: Option<(ToolPtr, ToolPtr)>,
    indexes: Option<(Inx32, Inx32)>,
) -> Option<LinkInsertKind<ToolPtr>>
    ensures { result ≡ by_either (λ x. Bridge x.0 x.1) (λ x. BridgeInx x.0 x.1) pointers indexes }
{
    match pointers {
        Some((end, start)) => Some(LinkInsertKind::Bridge { end, start }),
        None => {
            let (end, start) = indexes?;
            Some(LinkInsertKind::BridgeInx { end, start })
        }
    }
}

fn no_arguments(arguments: &[u8]) -> Option<()>
    ensures { result ≡ no_arguments (words_of arguments.now) }
{
    match next_word(arguments) {
        None => Some(()),
        Some(_) => None,
    }
}

fn reset(arguments: &[u8]) -> Option<bool>
    ensures { result ≡ reset_of (words_of arguments.now) }
{
    match one_word(arguments)? {
        b"reset" => Some(true),
        b"keep" => Some(false),
        _ => None,
    }
}

fn removal(arguments: &[u8]) -> Option<Call<ToolPtr, u32>>
    ensures { result ≡ removal (words_of arguments.now) }
{
    let word = one_word(arguments)?;
    match pointer(word) {
        Some(p) => Some(Call::Remove(p)),
        None => Some(Call::RemoveInx(index(word)?)),
    }
}

fn one_word(arguments: &[u8]) -> Option<&[u8]>
    ensures { option_map (λ word. word.now) result ≡ one_word (words_of arguments.now) }
{
    let (word, rest) = next_word(arguments)?;
    match next_word(rest) {
        None => Some(word),
        Some(_) => None,
    }
}

fn one_number(arguments: &[u8]) -> Option<u32>
    ensures { result ≡ one_number (words_of arguments.now) }
{
    number(one_word(arguments)?)
}

fn one_generation(arguments: &[u8]) -> Option<Gen32>
    ensures { result ≡ option_and_then generation_of (one_number (words_of arguments.now)) }
{
    Gen32::new(one_number(arguments)?)
}

#[inline(always)]
fn one_pointer(arguments: &[u8]) -> Option<ToolPtr>
    ensures { result ≡ one_pointer (words_of arguments.now) }
{
    pointer(one_word(arguments)?)
}

#[inline(always)]
fn two_pointers(arguments: &[u8]) -> Option<(ToolPtr, ToolPtr)>
    ensures { result ≡ two_pointers (words_of arguments.now) }
{
    let (word, rest) = next_word(arguments)?;
    Some((pointer(word)?, one_pointer(rest)?))
}

fn three_pointers(arguments: &[u8]) -> Option<(ToolPtr, (ToolPtr, ToolPtr))>
    ensures { result ≡ three_pointers (words_of arguments.now) }
{
    let (word, rest) = next_word(arguments)?;
    Some((pointer(word)?, two_pointers(rest)?))
}

fn pointer_and_number(arguments: &[u8]) -> Option<(ToolPtr, usize)>
    ensures { result ≡ pointer_and_number (words_of arguments.now) }
{
    let (word, rest) = next_word(arguments)?;
    Some((pointer(word)?, one_number(rest)? as usize))
}
