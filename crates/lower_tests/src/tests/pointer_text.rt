// Tests of the texts of indexes, generations and pointers.
use crate::tests::support::{all, gen8, gen32, gen64, inx8, inx32, inx64, is_text};
use arena_ptr::{Gen32, GenKey, Inx8, InxKey, Ptr, PtrGen, PtrInx, PtrKey, ToolPtr};
use std::alloc::Global;
use std::fmt;

// An index and a generation, displayed by their own texts.
#[derive(Drop)]
struct Printed<I, G>(I, G);

impl<I: PtrInx, G: PtrGen> fmt::Display for Printed<I, G> {
    fn fmt<W: fmt::Write>(&self, f: &mut fmt::Formatter<W>) -> fmt::Result {
        self.0.fmt_hex(f)?;
        self.1.fmt_gen(f)
    }
}

// Returns whether this text is written plain, with `#` and with a width.
fn reads<I: PtrInx, G: PtrGen>(alloc: Global, inx: I, generation: G, want: &str) -> bool {
    let printed = Printed(inx, generation);
    is_text(
        format!(in alloc; "{printed} {printed:#} {printed:>12}"),
        want,
    )
}

#[test]
fn texts_of_indexes_and_generations_are_hexadecimal(rt: HostRuntime) {
    let alloc = rt.alloc();
    let i = inx8(&rt, 16);
    let (last, end) = (inx64(&rt, u64::MAX), gen64(&rt, u64::MAX));
    let greatest = "ffffffffffffffff(ffffffffffffffff) ffffffffffffffff(ffffffffffffffff) \
        ffffffffffffffff(ffffffffffffffff)";
    let checks = [
        reads(alloc, i, gen8(&rt, 0xfe), "10(fe) 10(fe) 10(fe)"),
        reads(alloc, i, (), "10 10 10"),
        reads(
            alloc,
            inx32(&rt, 0xab_cdef),
            Gen32::two(),
            "abcdef(2) abcdef(2) abcdef(2)",
        ),
        reads(alloc, last, end, greatest),
    ];
    all(&rt, "whatever the format", &checks);
}

#[test]
fn the_text_of_a_pointer_has_its_name(rt: HostRuntime) {
    let p = ToolPtr::_from_raw(inx32(&rt, 26), gen32(&rt, 11));
    let name = ToolPtr::name();
    let written = format!(in rt.alloc(); "{name} {p:?} {p:#?}");
    all(
        &rt,
        "the texts",
        &[is_text(written, "P0 P0[1a](b) P0[1a](b)")],
    );
}

// A packed optional index is written as the optional index that it means.
#[test]
fn the_text_of_a_packed_index_is_that_of_the_index(rt: HostRuntime) {
    let packed = (Inx8::pack(None), Inx8::pack(Some(inx8(&rt, 3))));
    let written = format!(in rt.alloc(); "{packed:?}");
    let want = "(None, Some(Inx8 { number: 3 }))";
    all(&rt, "none and an index", &[is_text(written, want)]);
}
