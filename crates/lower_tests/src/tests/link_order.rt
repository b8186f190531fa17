//! Tests of which links are equal, and which comes first.

use super::links::pointer;
use super::support::equal;
use arena_ptr::{Inx32, ToolPtr};
use chain_links::{Link, LinkNoGen};
use std::cmp::Ordering;
use std::hash::{DefaultHasher, Hash, Hasher};

// The indexes of a link's neighbors, 0 for none, and its value.
type Parts = (u32, u32, u32);

// Links in ascending order.
const ASCENDING: [Parts; 8] = [
    (0, 0, 1),
    (0, 0, 2),
    (0, 2, 9),
    (1, 0, 0),
    (1, 0, 7),
    (1, 1, 0),
    (1, 256, 0),
    (256, 0, 0),
];

fn inx(n: u32) -> Option<Inx32> {
    Inx32::new(n)
}

fn bare(parts: Parts) -> LinkNoGen<ToolPtr, u32> {
    let (prev, next, t) = parts;
    LinkNoGen::<ToolPtr, u32>::new((inx(prev), inx(next)), t)
}

// Returns a link with pointers of generation 2, as the first links of an arena have.
fn with_pointers(parts: Parts) -> Link<ToolPtr, u32> {
    let (prev, next, t) = parts;
    Link::new((pointer((prev, 2)), pointer((next, 2))), t)
}

// Returns whether `l` is below `m` by each comparison, and has another hash.
fn is_below<L: Ord + Hash>(l: &L, m: &L) -> bool {
    l < m && m > l && l != m && l.cmp(m).is_lt() && m.cmp(l).is_gt() && hash_of(l) != hash_of(m)
}

// Returns whether `l` equals `m` by each comparison.
fn is_same<L: Ord + Hash>(l: &L, m: &L) -> bool {
    l == m && l.cmp(m).is_eq() && hash_of(l) == hash_of(m)
}

fn hash_of<T: Hash>(t: &T) -> u64 {
    let mut state = DefaultHasher::new();
    t.hash(&mut state);
    state.finish()
}

// Returns whether a link is below another, with and without generations.
fn ascends(low: Parts, high: Parts) -> bool {
    is_below(&bare(low), &bare(high)) && is_below(&with_pointers(low), &with_pointers(high))
}

fn equals_its_clone<L: Ord + Hash + Clone + Drop>(l: &L) -> bool {
    match l.clone() {
        Ok(copy) => is_same(l, &copy),
        Err(_) => false,
    }
}

// Returns whether a link equals its clone, with and without generations.
fn equals(parts: Parts) -> bool {
    equals_its_clone(&bare(parts)) && equals_its_clone(&with_pointers(parts))
}

// Returns whether a link has these neighbors, as pointers and as indexes.
fn has_neighbors(link: &Link<ToolPtr, u32>, (prev, next, _): Parts) -> bool {
    link.prev_next() == (pointer((prev, 2)), pointer((next, 2)))
        && link.no_gen_ref().prev_next() == (inx(prev), inx(next))
}

#[test]
fn links_order_by_neighbors_then_values(rt: HostRuntime) {
    let mut last: Option<Parts> = None;
    for parts in ASCENDING {
        if let Some(low) = last {
            assert!(rt; ascends(low, parts));
        }
        assert!(rt; equals(parts) && has_neighbors(&with_pointers(parts), parts));
        last = Some(parts);
    }
}

#[test]
fn the_generation_of_a_neighbor_counts_until_it_is_taken_off(rt: HostRuntime) {
    let old = with_pointers((1, 0, 7));
    let new = Link::new((pointer((1, 3)), None), 7);
    assert!(rt;
        is_below(&old, &new) && is_same(&old.no_gen(), &new.no_gen()) && *new.no_gen_ref().t == 7
    );
}

#[test]
fn a_value_without_an_order_has_none_in_a_link(rt: HostRuntime) {
    let link = |next: u32, t: f64| LinkNoGen::<ToolPtr, f64>::new((None, inx(next)), t);
    let nan = 0.0 / 0.0;
    equal(&rt, "alone", link(0, nan).partial_cmp(&link(0, 1.0)), None);
    let decided = link(0, nan).partial_cmp(&link(1, nan));
    equal(&rt, "by the next", decided, Some(Ordering::Less));
}
