//! The values of links.

ghost use Rattle.std.specs.Prelude.{◌≡◌, Some};
ghost use Rattle.std.specs.Borrow.{LendsIf, sem};
ghost use Rattle.std.specs.Option.{option_copied_mut};
ghost use Rattle.linked_lists.specs.declared.entry.Entry.TheVariants as entries;
ghost use Rattle.arena_core.specs.Invalidation.{invalidation_result, is_overflow_result, value_within};
ghost use Rattle.linked_lists.specs.RingCalls.{value_in};

use arena_ptr::InvalidationResult;

/// The value of a link.
#[derive(Drop)]
pub enum Entry<T: Drop> {
    /// At a handle, before the first item and after the last one.
    Head,
    Item(T),
}

impl<T: Drop> Entry<T> {
    ghost use Rattle.linked_lists.specs.contracts.entry.Entry.{the_row};

    pub(crate) fn value_mut(&mut self) -> Option<&mut T>
        ensures* writes_back { sem 𝓛 (LendsIf (the_row T.row) T.row self.entry result
            (λ w. entries.Item w) self.old) }
        ensures value { option_copied_mut result ≡ value_in (Some self.old) }
    {
        match self {
            Entry::Item(value) => Some(value),
            Entry::Head => None,
        }
    }
}

pub(crate) fn value_of<T: Drop>(entry: Option<Entry<T>>) -> Option<T>
    ensures { result ≡ value_in entry }
{
    match entry {
        Some(Entry::Item(value)) => Some(value),
        Some(Entry::Head) => None,
        None => None,
    }
}

pub(crate) fn removed_value<T: Drop>(removed: InvalidationResult<Entry<T>>) -> InvalidationResult<T>
    ensures { result ≡ invalidation_result (is_overflow_result removed)
        (value_in (value_within removed)) }
{
    match removed {
        InvalidationResult::Success(Entry::Item(value)) => InvalidationResult::Success(value),
        InvalidationResult::GenerationOverflow(Entry::Item(value)) => {
            InvalidationResult::GenerationOverflow(value)
        }
        _ => InvalidationResult::InvalidPtr,
    }
}
