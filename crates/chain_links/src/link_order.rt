ghost use Rattle.std.specs.Prelude.{◌≡◌, ◌<◌};
ghost use Rattle.std.specs.Option.{option_map};
ghost use Rattle.std.specs.declared.cmp.Ordering.TheVariants.{Less};
ghost use Rattle.chain_links.specs.LinkOrder.{CompareByParts, body_parts, parts_of};

use crate::links::{Link, LinkNoGen, RawLink};
use arena_ptr::{InxKey, PackedOption, Ptr};
use std::cmp::Ordering;
use std::hash::{Hash, Hasher};

fn number_of<I: InxKey>(i: Option<I>) -> Option<usize>
    ensures { result ≡ option_map I.number i }
{
    match i {
        Some(i) => i.try_into_usize(),
        None => None,
    }
}

impl<W: Copy, I: InxKey<Word = W>, T> RawLink<PackedOption<I, W>, T> {
    fn numbers(&self) -> (Option<usize>, Option<usize>)
        ensures { result ≡ (I.packed_number self.now.prev, I.packed_number self.now.next) }
    {
        let (prev, next) = self.prev_next();
        (number_of(prev), number_of(next))
    }
}

impl<W: Copy, I: InxKey<Word = W>, T: PartialEq> PartialEq for RawLink<PackedOption<I, W>, T> {
    ghost use Rattle.chain_links.specs.Links.{link_view};
    ghost use Rattle.chain_links.specs.LinkOrder.{links_eq};
    ghost use Rattle.chain_links.specs.LinkOrderLaws.{links_per};
    ghost use Rattle.std.specs.Cmp.{on_per};

    ghost eq = { λ l m. links_eq T.eq (link_view I.packed_number l) (link_view I.packed_number m) };

    ghost laws = { on_per (link_view I.packed_number) (links_per T.laws) };

    fn eq(&self, other: &Self) -> bool {
        self.numbers() == other.numbers() && self.t == other.t
    }
}

impl<W: Copy, I: InxKey<Word = W>, T: Eq> Eq for RawLink<PackedOption<I, W>, T> {
    ghost use Rattle.chain_links.specs.Links.{link_view};
    ghost use Rattle.chain_links.specs.LinkOrderLaws.{links_equiv};
    ghost use Rattle.std.specs.Cmp.{on_equiv};

    ghost laws = { on_equiv (link_view I.packed_number) (links_equiv T.Eq.laws) };
}

impl<W: Copy, I: InxKey<Word = W>, T: PartialOrd> PartialOrd for RawLink<PackedOption<I, W>, T> {
    ghost use Rattle.chain_links.specs.Links.{link_view};
    ghost use Rattle.chain_links.specs.LinkOrder.{links_partial_cmp};
    ghost use Rattle.chain_links.specs.LinkOrderLaws.{links_po};
    ghost use Rattle.std.specs.Cmp.{on_po};

    ghost partial_cmp = { λ l m. links_partial_cmp T.partial_cmp (link_view I.packed_number l)
        (link_view I.packed_number m) };

    ghost laws = { on_po (link_view I.packed_number) (links_po T.PartialOrd.laws) };

    fn partial_cmp(&self, other: &Self) -> Option<Ordering> {
        let neighbors = self.numbers().cmp(&other.numbers());
        Ordering::or_partial_cmp(Some(neighbors), &self.t, &other.t)
    }
}

impl<W: Copy, I: InxKey<Word = W>, T: Ord> Ord for RawLink<PackedOption<I, W>, T> {
    ghost use Rattle.chain_links.specs.Links.{link_view};
    ghost use Rattle.chain_links.specs.LinkOrder.{links_cmp};
    ghost use Rattle.chain_links.specs.LinkOrderLaws.{links_total, links_cmp_partial, links_are_equivalent};
    ghost use Rattle.std.specs.Cmp.{on_total};

    ghost cmp = { λ l m. links_cmp T.cmp (link_view I.packed_number l)
        (link_view I.packed_number m) };

    ghost total = { on_total (link_view I.packed_number) (links_total T.total) };

    ghost matches_partial_cmp = { λ l m. links_cmp_partial T.partial_cmp T.cmp T.matches_partial_cmp
        (link_view I.packed_number l) (link_view I.packed_number m) };

    ghost matches_eq = { λ l m. links_are_equivalent T.eq T.cmp T.matches_eq
        (link_view I.packed_number l)
        (link_view I.packed_number m) };

    fn cmp(&self, other: &Self) -> Ordering {
        let neighbors = self.numbers().cmp(&other.numbers());
        Ordering::or_cmp(neighbors, &self.t, &other.t)
    }
}

impl<W: Copy, I: InxKey<Word = W>, T: Hash> Hash for RawLink<PackedOption<I, W>, T> {
    ghost use Rattle.chain_links.specs.Links.{link_view};
    ghost use Rattle.chain_links.specs.LinkOrder.{link_writes};
    ghost use Rattle.chain_links.specs.LinkOrderLaws.{links_alike};

    ghost hash_input = { λ l. link_writes T.hash_input (link_view I.packed_number l) };

    ghost respects_eq = { λ l m. links_alike T.eq T.hash_input T.respects_eq
        (link_view I.packed_number l) (link_view I.packed_number m) };

    fn hash<H: Hasher>(&self, state: &mut H) {
        self.numbers().hash(state);
        self.t.hash(state);
    }
}

/// States that links compare by previous neighbor, next neighbor and value, with `None` least.
pub fn links_compare_by_neighbors<P: Ptr, T: Ord>()
    ensures no_gen { CompareByParts (body_parts P.Inx.packed_number) ◌<◌ T.eq T.cmp
        ⟦<LinkNoGen<P, T> as PartialEq>⟧.eq ⟦<LinkNoGen<P, T> as Ord>⟧.cmp }
    ensures pointers { CompareByParts parts_of (λ p q. P.cmp p q ≡ Less) T.eq T.cmp
        ⟦<Link<P, T> as PartialEq>⟧.eq ⟦<Link<P, T> as Ord>⟧.cmp }
{}
