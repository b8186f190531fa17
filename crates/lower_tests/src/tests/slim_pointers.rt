// Tests of indexes of 16 bits, of generations of 16 and 24 bits, and of slim and tiny pointers.
use crate::tests::support::{all, inx32, is_text};
use arena_ptr::{Gen16, Gen24, GenKey, Inx16, InxKey, Ptr, PtrKey, SlimPtr, TinyPtr};
use std::process::Abort;

fn gen24(rt: &impl Abort, n: u32) -> Gen24 {
    Gen24::new(n).expect(rt, "a generation")
}

fn slim_ptr(rt: &impl Abort, inx: u32, generation: u32) -> SlimPtr {
    SlimPtr::_from_raw(inx32(rt, inx), gen24(rt, generation))
}

fn tiny_ptr(rt: &impl Abort, inx: u16, generation: u16) -> TinyPtr {
    let generation = Gen16::new(generation).expect(rt, "a generation");
    TinyPtr::_from_raw(Inx16::new(inx).expect(rt, "an index"), generation)
}

#[test]
fn numbers_outside_the_range_make_no_generation(rt: HostRuntime) {
    let none = [
        Gen16::new(0).is_none(),
        Gen24::new(0).is_none(),
        Gen24::new(16_777_216).is_none(),
        Gen24::new(u32::MAX).is_none(),
    ];
    all(&rt, "none", &none);
    for n in [1, 255, 256, 65_535, 65_536, 16_777_215] {
        assert!(rt; gen24(&rt, n).get() == n, "the number {n} again");
    }
}

// The greatest generation overflows to two.
#[test]
fn generations_count_through_their_bytes(rt: HostRuntime) {
    let counted = [
        Gen16::two().get() == 2,
        Gen24::two().get() == 2,
        gen24(&rt, 255).generational_inc() == (gen24(&rt, 256), false),
        gen24(&rt, 65_535).generational_inc() == (gen24(&rt, 65_536), false),
        gen24(&rt, 16_777_214).generational_inc() == (gen24(&rt, 16_777_215), false),
        gen24(&rt, 16_777_215).generational_inc() == (Gen24::two(), true),
    ];
    all(&rt, "counted", &counted);
}

// Pointers are in order by index first, and generations by their numbers.
#[test]
fn a_slim_pointer_is_its_two_parts(rt: HostRuntime) {
    let p = slim_ptr(&rt, 3, 500);
    let order = [
        p.inx() == inx32(&rt, 3),
        p.generation() == gen24(&rt, 500),
        p.is_same(slim_ptr(&rt, 3, 500)),
        p != slim_ptr(&rt, 3, 244),
        p < slim_ptr(&rt, 3, 65_536),
        slim_ptr(&rt, 2, 65_536) < p,
        SlimPtr::invalid() == slim_ptr(&rt, 1, 1),
    ];
    all(&rt, "in order", &order);
}

#[test]
fn a_slim_pointer_has_its_name_in_its_text(rt: HostRuntime) {
    let p = slim_ptr(&rt, 26, 11);
    let (name, generation) = (SlimPtr::name(), p.generation());
    let written = format!(in rt.alloc(); "{name} {p:?} {generation:?}");
    let want = "SlimPtr SlimPtr[1a](b) Gen24 { number: 11 }";
    all(&rt, "the texts", &[is_text(written, want)]);
}

#[test]
fn indexes_of_16_bits_end_at_their_greatest(rt: HostRuntime) {
    let made = [
        Inx16::new(0).is_none(),
        Inx16::try_from_usize(65_536).is_none(),
        Inx16::try_from_usize(65_535) == Inx16::new(65_535),
        Inx16::greatest() == 65_535,
        Inx16::unpack(Inx16::pack(Inx16::new(300))) == Inx16::new(300),
        Inx16::unpack(Inx16::pack(None)).is_none(),
    ];
    all(&rt, "made", &made);
}

#[test]
fn a_tiny_pointer_is_its_two_parts(rt: HostRuntime) {
    let p = tiny_ptr(&rt, 26, 11);
    let parts = [
        Inx16::new(26) == Some(p.inx()),
        Gen16::new(11) == Some(p.generation()),
        p.is_same(tiny_ptr(&rt, 26, 11)),
        p != tiny_ptr(&rt, 26, 267),
        p < tiny_ptr(&rt, 27, 2),
        TinyPtr::invalid() == tiny_ptr(&rt, 1, 1),
    ];
    all(&rt, "its parts", &parts);
    let name = TinyPtr::name();
    let written = format!(in rt.alloc(); "{name} {p:?}");
    all(
        &rt,
        "the texts",
        &[is_text(written, "TinyPtr TinyPtr[1a](b)")],
    );
}
