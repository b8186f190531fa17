use crate::chain_arena::ChainArena;
use arena_base::ArenaSlot;
use arena_ptr::{Ptr, SlotStack};
use chain_linking::links_text::fmt_links;
use chain_links::LinkNoGen;
use std::fmt;

/// Formats all links in ascending index order.
impl<P: Ptr, T: fmt::Debug + Drop, S: SlotStack<Item = ArenaSlot<P, LinkNoGen<P, T>>>> fmt::Debug
    for ChainArena<P, T, S> {
    fn fmt<F: fmt::Write>(&self, f: &mut fmt::Formatter<F>) -> fmt::Result {
        fmt_links(self.iter_link_no_gen(), f)
    }
}
