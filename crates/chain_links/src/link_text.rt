ghost use Rattle.std.specs.Option.{option_map};
ghost use Rattle.std.specs.Fmt.{WritesOnOk, DisplaysOnOk};
ghost use Rattle.chain_links.specs.LinkText.{index_text, neighbors_text};

use crate::links::{Link, RawLink, index_of};
use arena_ptr::{PackedOption, Ptr, PtrInx};
use std::fmt;

fn write_index<I: PtrInx, F: fmt::Write>(
    f: &mut fmt::Formatter<F>,
    i: Option<I>,
    none: &str,
) -> fmt::Result
    ensures { WritesOnOk F.write_str_gives f.old result
        (index_text none.now (option_map I.number i)) f.new }
{
    match i {
        Some(i) => i.fmt_hex(f),
        None => f.write_str(none),
    }
}

fn write_neighbors<I: PtrInx, F: fmt::Write>(
    f: &mut fmt::Formatter<F>,
    prev: Option<I>,
    next: Option<I>,
) -> fmt::Result
    ensures { WritesOnOk F.write_str_gives f.old result (neighbors_text (option_map I.number prev)
        (option_map I.number next)) f.new }
{
    f.write_str("{")?;
    write_index(f, prev, "(start)")?;
    f.write_str(", ")?;
    write_index(f, next, "(end)")?;
    f.write_str("} ")
}

fn write_debug<T: fmt::Debug, F: fmt::Write>(f: &mut fmt::Formatter<F>, value: &T) -> fmt::Result
    ensures { DisplaysOnOk F.write_str_gives f.old result (T.debug_output value.now) f.new }
{
    if f.alternate() {
        write!(f, "{:#?}", value)
    } else {
        write!(f, "{:?}", value)
    }
}

fn write_display<T: fmt::Display, F: fmt::Write>(
    f: &mut fmt::Formatter<F>,
    value: &T,
) -> fmt::Result
    ensures { DisplaysOnOk F.write_str_gives f.old result (T.output value.now) f.new }
{
    if f.alternate() {
        write!(f, "{:#}", value)
    } else {
        write!(f, "{}", value)
    }
}

/// Writes a link as `{1, (end)} "B"`, with `(start)` and `(end)` for no index.
///
/// Of the caller's format only the alternate flag reaches the value.
impl<W: Copy, I: PtrInx<Word = W>, T: fmt::Debug> fmt::Debug for RawLink<PackedOption<I, W>, T> {
    ghost use Rattle.chain_links.specs.LinkText.{link_text};

    ghost debug_output = { λ l. link_text (I.packed_number l.prev) (I.packed_number l.next)
        (T.debug_output l.t) };

    fn fmt<F: fmt::Write>(&self, f: &mut fmt::Formatter<F>) -> fmt::Result {
        write_neighbors(f, self.prev(), self.next())?;
        write_debug(f, &self.t)
    }
}

impl<W: Copy, I: PtrInx<Word = W>, T: fmt::Display> fmt::Display
    for RawLink<PackedOption<I, W>, T> {
    ghost use Rattle.chain_links.specs.LinkText.{link_text};

    ghost output = { λ l. link_text (I.packed_number l.prev) (I.packed_number l.next)
        (T.output l.t) };

    fn fmt<F: fmt::Write>(&self, f: &mut fmt::Formatter<F>) -> fmt::Result {
        write_neighbors(f, self.prev(), self.next())?;
        write_display(f, &self.t)
    }
}

/// Writes the text of a link without generations.
impl<P: Ptr, T: fmt::Debug> fmt::Debug for Link<P, T> {
    ghost use Rattle.std.specs.Option.{option_map};
    ghost use Rattle.chain_links.specs.Links.{index_in};
    ghost use Rattle.chain_links.specs.LinkText.{link_text};

    ghost debug_output = { λ l. link_text (option_map (index_in P.key) l.prev)
        (option_map (index_in P.key) l.next) (T.debug_output l.t) };

    fn fmt<F: fmt::Write>(&self, f: &mut fmt::Formatter<F>) -> fmt::Result {
        write_neighbors(f, index_of(self.prev()), index_of(self.next()))?;
        write_debug(f, &self.t)
    }
}

impl<P: Ptr, T: fmt::Display> fmt::Display for Link<P, T> {
    ghost use Rattle.std.specs.Option.{option_map};
    ghost use Rattle.chain_links.specs.Links.{index_in};
    ghost use Rattle.chain_links.specs.LinkText.{link_text};

    ghost output = { λ l. link_text (option_map (index_in P.key) l.prev)
        (option_map (index_in P.key) l.next) (T.output l.t) };

    fn fmt<F: fmt::Write>(&self, f: &mut fmt::Formatter<F>) -> fmt::Result {
        write_neighbors(f, index_of(self.prev()), index_of(self.next()))?;
        write_display(f, &self.t)
    }
}
