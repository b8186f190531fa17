//! Errors of commands.

ghost use Rattle.std.specs.Prelude.{◌≡◌};
ghost use Rattle.outline_commands.specs.declared.command_error.CommandError.TheVariants.{Refused, Memory};

use crate::refusal::Refusal;
use std::alloc::{AllocError, AllocFailed};

#[derive(Clone, Copy, Debug, PartialEq, Eq)]
pub enum CommandError {
    /// Nothing changes.
    Refused(Refusal),
    /// An allocation failed, and the command may be half done.
    Memory,
}

impl From<AllocError> for CommandError {
    ghost from_gives = { λ _ e. e ≡ Memory };

    fn from(_error: AllocError) -> CommandError {
        CommandError::Memory
    }
}

impl<T: Drop> From<AllocFailed<T>> for CommandError {
    ghost from_gives = { λ _ e. e ≡ Memory };

    fn from(_error: AllocFailed<T>) -> CommandError {
        CommandError::Memory
    }
}

impl From<Refusal> for CommandError {
    ghost from_gives = { λ why e. e ≡ Refused why };

    fn from(refusal: Refusal) -> CommandError {
        CommandError::Refused(refusal)
    }
}
