//! Private fields, not exported by `chain_arena`.
ghost use Rattle.std.specs.Prelude.{◌≡◌, None};
ghost use Rattle.std.specs.Option.{option_map};

use crate::links::RawLink;
use arena_ptr::{InxKey, PackedOption};

/// Returns the value.
pub fn value_of<W: Copy, I: InxKey<Word = W>, T>(link: &RawLink<PackedOption<I, W>, T>) -> &T
    ensures { result.now ≡ link.now.t }
{
    &link.t
}

/// Sets the next index.
pub fn set_next<W: Copy, I: InxKey<Word = W>, T>(
    link: &mut RawLink<PackedOption<I, W>, T>,
    next: Option<I>,
)
    ensures next { I.packed_number link.new.next ≡ option_map I.number next }
    ensures rest { link.new ≡ record link.old { next = link.new.next } }
{
    link.next = I::pack(next);
}

/// Sets the previous index.
pub fn set_prev<W: Copy, I: InxKey<Word = W>, T>(
    link: &mut RawLink<PackedOption<I, W>, T>,
    prev: Option<I>,
)
    ensures prev { I.packed_number link.new.prev ≡ option_map I.number prev }
    ensures rest { link.new ≡ record link.old { prev = link.new.prev } }
{
    link.prev = I::pack(prev);
}

/// Exchanges both interlinks and returns the old ones.
pub fn turn<W: Copy, I: InxKey<Word = W>, T>(
    link: &mut RawLink<PackedOption<I, W>, T>,
) -> (Option<I>, Option<I>)
    ensures prev { option_map I.number result.0 ≡ I.packed_number link.old.prev }
    ensures next { option_map I.number result.1 ≡ I.packed_number link.old.next }
    ensures turned { link.new ≡ record link.old { prev = link.old.next; next = link.old.prev } }
{
    let prev = link.prev;
    let next = link.next;
    link.prev = next;
    link.next = prev;
    (I::unpack(prev), I::unpack(next))
}

/// Returns the index that the link is to be moved to.
pub fn destination_of<W: Copy, I: InxKey<Word = W>, T>(
    link: &RawLink<PackedOption<I, W>, T>,
) -> Option<I>
    ensures { option_map I.number result ≡ I.packed_number link.now.destination }
{
    I::unpack(link.destination)
}

/// Sets the index that the link is to be moved to.
pub fn set_destination<W: Copy, I: InxKey<Word = W>, T>(
    link: &mut RawLink<PackedOption<I, W>, T>,
    destination: Option<I>,
)
    ensures destination { I.packed_number link.new.destination ≡ option_map I.number destination }
    ensures rest { link.new ≡ record link.old { destination = link.new.destination } }
{
    link.destination = I::pack(destination);
}
