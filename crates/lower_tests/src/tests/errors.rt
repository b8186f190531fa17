// Tests of the texts of errors, and of `?` after a push.
use crate::tests::support::{all, is_text};
use arena_ptr::{
    AllocError, ChainInsertionError, MaxCapacityReductionError, NotWithinCapacityError,
    ReallocationError,
};
use std::alloc::AllocFailed;

#[test]
fn errors_have_texts(rt: HostRuntime) {
    let (refused, beyond) = (
        ReallocationError::AllocError,
        ReallocationError::BeyondMaxCapacity,
    );
    let (full, reduced) = (NotWithinCapacityError, MaxCapacityReductionError);
    let written = format!(in rt.alloc(); "{AllocError}; {refused}; {beyond}; {full}; {reduced}");
    let want = "allocation failed, or no index is left; allocation failed, or no index is left; \
        beyond the maximum capacity; not within the capacity; the maximum is below the capacity";
    all(&rt, "of arenas", &[is_text(written, want)]);
    let place = ChainInsertionError::FailedLinkRequirement;
    let within = ChainInsertionError::NotWithinCapacity;
    let refused = ChainInsertionError::AllocError;
    let beyond = ChainInsertionError::BeyondMaxCapacity;
    let written = format!(in rt.alloc(); "{place}; {within}; {refused}; {beyond}");
    let want = "no such place beside these links; not within the capacity; allocation failed, or \
        no index is left; beyond the maximum capacity";
    all(&rt, "of insertions", &[is_text(written, want)]);
}

#[test]
fn a_refused_push_is_an_error_of_arenas(rt: HostRuntime) {
    let made = [
        ReallocationError::from(AllocFailed { value: 1u32 }) == ReallocationError::AllocError,
        ChainInsertionError::from(AllocFailed { value: 1u32 }) == ChainInsertionError::AllocError,
    ];
    all(&rt, "made", &made);
}
