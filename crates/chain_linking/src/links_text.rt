use arena_base::{ArenaSlot, Iter};
use arena_ptr::{Ptr, PtrGen, PtrInx, SlotStack};
use chain_links::LinkNoGen;
use std::fmt;

#[derive(Clone, Copy)]
struct PtrText<P>(P);

impl<P: Ptr> fmt::Debug for PtrText<P> {
    fn fmt<F: fmt::Write>(&self, f: &mut fmt::Formatter<F>) -> fmt::Result {
        let PtrText(p) = *self;
        f.write_str(P::name())?;
        f.write_str("[")?;
        p.inx().fmt_hex(f)?;
        f.write_str("]")?;
        p.generation().fmt_gen(f)
    }
}

/// Formats links in iteration order, as `{P0[1](2): {(start), (end)} "A"}`, one per line in the
/// alternate form.
pub fn fmt_links<
    P: Ptr,
    T: fmt::Debug + Drop,
    S: SlotStack<Item = ArenaSlot<P, LinkNoGen<P, T>>>,
    F: fmt::Write,
>(links: Iter<'_, P, LinkNoGen<P, T>, S>, f: &mut fmt::Formatter<F>) -> fmt::Result {
    let mut map = f.debug_map();
    for (p, link) in links {
        map.entry(&PtrText(p), link);
    }
    map.finish()
}
