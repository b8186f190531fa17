ghost use Rattle.std.specs.Prelude.{Some, codes};

use std::alloc::{self, AllocFailed};
use std::error::Error;
use std::fmt;

/// An allocation failed, or the greatest index is exceeded.
///
/// Port of `AllocError`.
#[derive(Debug, Clone, Copy, PartialEq, Eq)]
pub struct AllocError;

impl From<alloc::AllocError> for AllocError {
    fn from(_refused: alloc::AllocError) -> AllocError {
        AllocError
    }
}

impl<T: Drop> From<AllocFailed<T>> for AllocError {
    fn from(_refused: AllocFailed<T>) -> AllocError {
        AllocError
    }
}

impl fmt::Display for AllocError {
    ghost output = { λ _. Some (codes "allocation failed, or no index is left") };

    fn fmt<W: fmt::Write>(&self, f: &mut fmt::Formatter<W>) -> fmt::Result {
        f.write_str("allocation failed, or no index is left")
    }
}

impl Error for AllocError {}

/// Why a stack or an arena did not grow.
///
/// Port of `ReallocationError`.
#[derive(Debug, Clone, Copy, PartialEq, Eq)]
pub enum ReallocationError {
    AllocError,
    BeyondMaxCapacity,
}

impl From<AllocError> for ReallocationError {
    ghost use Rattle.std.specs.Prelude.{◌≡◌};
    ghost use Rattle.arena_core.specs.declared.errors.ReallocationError.TheVariants as refused;

    ghost from_gives = { λ _ e. e ≡ refused.AllocError };

    fn from(_refused: AllocError) -> ReallocationError {
        ReallocationError::AllocError
    }
}

impl From<alloc::AllocError> for ReallocationError {
    ghost use Rattle.std.specs.Prelude.{◌≡◌};
    ghost use Rattle.arena_core.specs.declared.errors.ReallocationError.TheVariants as refused;

    ghost from_gives = { λ _ e. e ≡ refused.AllocError };

    fn from(_refused: alloc::AllocError) -> ReallocationError {
        ReallocationError::AllocError
    }
}

impl<T: Drop> From<AllocFailed<T>> for ReallocationError {
    ghost use Rattle.std.specs.Prelude.{◌≡◌};
    ghost use Rattle.arena_core.specs.declared.errors.ReallocationError.TheVariants as refused;

    ghost from_gives = { λ _ e. e ≡ refused.AllocError };

    fn from(_refused: AllocFailed<T>) -> ReallocationError {
        ReallocationError::AllocError
    }
}

impl fmt::Display for ReallocationError {
    ghost use Rattle.arena_core.specs.Errors.{refusal_text};

    ghost output = { λ why. Some (refusal_text why) };

    fn fmt<W: fmt::Write>(&self, f: &mut fmt::Formatter<W>) -> fmt::Result {
        f.write_str(match *self {
            ReallocationError::AllocError => "allocation failed, or no index is left",
            ReallocationError::BeyondMaxCapacity => "beyond the maximum capacity",
        })
    }
}

impl Error for ReallocationError {}

/// The capacity is used up.
///
/// Port of `NotWithinCapacityError`.
#[derive(Debug, Clone, Copy, PartialEq, Eq)]
pub struct NotWithinCapacityError;

impl fmt::Display for NotWithinCapacityError {
    ghost output = { λ _. Some (codes "not within the capacity") };

    fn fmt<W: fmt::Write>(&self, f: &mut fmt::Formatter<W>) -> fmt::Result {
        f.write_str("not within the capacity")
    }
}

impl Error for NotWithinCapacityError {}

/// The maximum is below the current capacity.
///
/// Port of `MaxCapacityReductionError`.
#[derive(Debug, Clone, Copy, PartialEq, Eq)]
pub struct MaxCapacityReductionError;

impl fmt::Display for MaxCapacityReductionError {
    ghost output = { λ _. Some (codes "the maximum is below the capacity") };

    fn fmt<W: fmt::Write>(&self, f: &mut fmt::Formatter<W>) -> fmt::Result {
        f.write_str("the maximum is below the capacity")
    }
}

impl Error for MaxCapacityReductionError {}

/// Why a link was not inserted; its value is dropped.
///
/// Port of `ChainInsertionError`.
#[derive(Debug, Clone, Copy, PartialEq, Eq)]
pub enum ChainInsertionError {
    /// The neighbors do not fit the insertion kind; tested first.
    FailedLinkRequirement,
    NotWithinCapacity,
    AllocError,
    BeyondMaxCapacity,
}

impl From<ReallocationError> for ChainInsertionError {
    ghost use Rattle.std.specs.Prelude.{◌≡◌};
    ghost use Rattle.arena_core.specs.Errors.{insertion_error};

    ghost from_gives = { λ why e. e ≡ insertion_error why };

    fn from(why: ReallocationError) -> ChainInsertionError {
        match why {
            ReallocationError::BeyondMaxCapacity => ChainInsertionError::BeyondMaxCapacity,
            ReallocationError::AllocError => ChainInsertionError::AllocError,
        }
    }
}

impl From<AllocError> for ChainInsertionError {
    ghost use Rattle.std.specs.Prelude.{◌≡◌};
    ghost use Rattle.arena_core.specs.declared.errors.ChainInsertionError.TheVariants as failed;

    ghost from_gives = { λ _ e. e ≡ failed.AllocError };

    fn from(_refused: AllocError) -> ChainInsertionError {
        ChainInsertionError::AllocError
    }
}

impl From<alloc::AllocError> for ChainInsertionError {
    ghost use Rattle.std.specs.Prelude.{◌≡◌};
    ghost use Rattle.arena_core.specs.declared.errors.ChainInsertionError.TheVariants as failed;

    ghost from_gives = { λ _ e. e ≡ failed.AllocError };

    fn from(_refused: alloc::AllocError) -> ChainInsertionError {
        ChainInsertionError::AllocError
    }
}

impl<T: Drop> From<AllocFailed<T>> for ChainInsertionError {
    ghost use Rattle.std.specs.Prelude.{◌≡◌};
    ghost use Rattle.arena_core.specs.declared.errors.ChainInsertionError.TheVariants as failed;

    ghost from_gives = { λ _ e. e ≡ failed.AllocError };

    fn from(_refused: AllocFailed<T>) -> ChainInsertionError {
        ChainInsertionError::AllocError
    }
}

impl fmt::Display for ChainInsertionError {
    ghost use Rattle.arena_core.specs.Errors.{insertion_text};

    ghost output = { λ why. Some (insertion_text why) };

    fn fmt<W: fmt::Write>(&self, f: &mut fmt::Formatter<W>) -> fmt::Result {
        f.write_str(match *self {
            ChainInsertionError::FailedLinkRequirement => "no such place beside these links",
            ChainInsertionError::NotWithinCapacity => "not within the capacity",
            ChainInsertionError::AllocError => "allocation failed, or no index is left",
            ChainInsertionError::BeyondMaxCapacity => "beyond the maximum capacity",
        })
    }
}

impl Error for ChainInsertionError {}
