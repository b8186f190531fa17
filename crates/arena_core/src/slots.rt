ghost use Rattle.std.specs.Prelude.{◌≡◌, ◌<◌, OnOk, OnErr, ◌≢◌, Err, vec_capacity};

use crate::errors::ReallocationError;

/// Reallocates to a capacity of exactly `n`.
///
/// # Errors
///
/// - `AllocError`: the allocation failed.
pub fn reserve_to<E>(slots: &mut Vec<E>, n: usize) -> Result<(), ReallocationError>
    requires { vec_capacity slots.old < n }
    ensures items { slots.new.items ≡ slots.old.items }
    ensures ok { OnOk result (vec_capacity slots.new ≡ n) }
    ensures err { OnErr result (vec_capacity slots.new ≡ vec_capacity slots.old) }
    ensures refused { result ≢ Err ReallocationError.BeyondMaxCapacity }
{
    match slots.reserve_exact(n - slots.len()) {
        Ok(()) => Ok(()),
        Err(_) => Err(ReallocationError::AllocError),
    }
}
