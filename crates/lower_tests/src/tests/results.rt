// Tests of the results of calls that invalidate.
use crate::tests::support::equal;
use arena_ptr::{InvalidationOption, InvalidationResult};

fn is_above_three(n: i32) -> bool {
    n > 3
}

// Returns the value, the value with the overflow flag, and whether it is above three, as a result.
fn each_of_option(
    outcome: InvalidationOption<i32>,
) -> (i32, (i32, bool), InvalidationOption<bool>) {
    (
        outcome.allow(),
        outcome.overflowing(),
        outcome.map(is_above_three),
    )
}

fn each_of_result(
    outcome: InvalidationResult<i32>,
) -> (Option<i32>, (Option<i32>, bool), InvalidationResult<bool>) {
    (
        outcome.allow(),
        outcome.overflowing(),
        outcome.map(is_above_three),
    )
}

#[test]
fn a_result_has_its_value_and_reports_overflow(rt: HostRuntime) {
    let reply = each_of_option(InvalidationOption::Success(3));
    equal(
        &rt,
        "a value",
        reply,
        (3, (3, false), InvalidationOption::Success(false)),
    );
    let reply = each_of_option(InvalidationOption::GenerationOverflow(4));
    let want = InvalidationOption::GenerationOverflow(true);
    equal(&rt, "an overflow", reply, (4, (4, true), want));
}

#[test]
fn a_result_may_have_no_value(rt: HostRuntime) {
    let reply = each_of_result(InvalidationResult::Success(3));
    let want = InvalidationResult::Success(false);
    equal(&rt, "a value", reply, (Some(3), (Some(3), false), want));
    let reply = each_of_result(InvalidationResult::GenerationOverflow(4));
    let want = InvalidationResult::GenerationOverflow(true);
    equal(&rt, "an overflow", reply, (Some(4), (Some(4), true), want));
    let reply = each_of_result(InvalidationResult::InvalidPtr);
    equal(
        &rt,
        "none",
        reply,
        (None, (None, false), InvalidationResult::InvalidPtr),
    );
}

#[test]
fn a_result_may_own_its_value(rt: HostRuntime) {
    let owned = Vec::from_array(rt.alloc(), [5]).expect(&rt, "memory");
    let outcome = InvalidationResult::GenerationOverflow(owned);
    let want = InvalidationResult::GenerationOverflow(1);
    equal(&rt, "the length", outcome.map(|v| v.len()), want);
}
