// Functions of any stack of slots.
ghost use Rattle.std.specs.Prelude.{◌≡◌, OnErr, slice_get};
ghost use Rattle.std.specs.Option.{option_copied};

use arena_ptr::{ReallocationError, SlotStack};

/// Forwards to `SlotStack::get`.
pub fn slot_at<S: SlotStack>(stack: &S, i: usize) -> Option<&S::Item>
    ensures { option_copied result ≡ slice_get (S.items stack.now) i }
{
    stack.get(i)
}

/// Forwards to `SlotStack::reserve_to`, under its clause on the capacity after a refusal.
pub fn reserve_to<S: SlotStack>(stack: &mut S, n: usize) -> Result<(), ReallocationError>
    ensures { OnErr result (S.capacity stack.new ≡ S.capacity stack.old) }
{
    stack.reserve_to(n)
}
