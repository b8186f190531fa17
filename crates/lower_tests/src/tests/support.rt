// Helpers of the tests: comparisons, and numbers that must exist.
use arena_ptr::{Gen8, Gen32, Gen64, Inx8, Inx32, Inx64};
use std::alloc::AllocError;
use std::process::Abort;

pub(super) fn same(rt: &impl Abort, what: &str, got: &str, want: &str) {
    assert_eq!(rt; got, want, "{what}");
}

// Checks a value without showing it: texts of values would need more types at each call.
pub(super) fn equal<T: PartialEq + Drop>(rt: &impl Abort, what: &str, got: T, want: T) {
    assert!(rt; got == want, "{what}");
}

// Panics unless each of `checks` is true.
pub(super) fn all(rt: &impl Abort, what: &str, checks: &[bool]) {
    let mut n = 0usize;
    for check in checks {
        n = n.saturating_add(1);
        assert!(rt; *check, "{what}: {n}");
    }
}

// Returns whether a text was written and is this one.
pub(super) fn is_text(written: Result<String, AllocError>, want: &str) -> bool {
    match written {
        Ok(text) => text.as_str() == want,
        Err(_) => false,
    }
}

pub(super) fn inx8(rt: &impl Abort, n: u8) -> Inx8 {
    Inx8::new(n).expect(rt, "an index")
}

pub(super) fn inx32(rt: &impl Abort, n: u32) -> Inx32 {
    Inx32::new(n).expect(rt, "an index")
}

pub(super) fn inx64(rt: &impl Abort, n: u64) -> Inx64 {
    Inx64::new(n).expect(rt, "an index")
}

pub(super) fn gen8(rt: &impl Abort, n: u8) -> Gen8 {
    Gen8::new(n).expect(rt, "a generation")
}

pub(super) fn gen32(rt: &impl Abort, n: u32) -> Gen32 {
    Gen32::new(n).expect(rt, "a generation")
}

pub(super) fn gen64(rt: &impl Abort, n: u64) -> Gen64 {
    Gen64::new(n).expect(rt, "a generation")
}
