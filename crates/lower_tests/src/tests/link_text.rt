//! Tests of the texts of links.

use super::links::{At, NONE, pointer};
use super::support::same;
use arena_ptr::{Inx32, Ptr, ToolPtr};
use chain_links::{Link, LinkNoGen};
use std::alloc::Global;
use std::fmt::{Debug, Display};
use std::process::Abort;
use test_types::FormatProbe;

// Returns the texts by `Debug` and `Display`: plain, alternate, and with a width, a sign and a
// precision.
fn texts_of<T: Debug + Display>(alloc: Global, item: &T) -> Option<String> {
    format!(in alloc; "{item:?} {item:#?} {item:>+40.3?} {item} {item:#} {item:>+40.3}").ok()
}

// Returns the texts of a link, with and without the generations of its neighbors.
fn texts_of_link<P: Ptr>(alloc: Global, link: Link<P, FormatProbe>) -> [Option<String>; 2] {
    [texts_of(alloc, &link), texts_of(alloc, &link.no_gen())]
}

fn reads(rt: &impl Abort, what: &str, text: Option<String>, want: &str) {
    let text = text.expect(rt, "memory");
    same(rt, what, text.as_str(), want);
}

// Links by their neighbors, and their texts. Indexes are hexadecimal, and only the alternate flag
// reaches the value.
const LINKS: [(At, At, &str); 4] = [
    (
        NONE,
        NONE,
        "{(start), (end)} debug {(start), (end)} debug# {(start), (end)} debug {(start), (end)} display {(start), (end)} display# {(start), (end)} display",
    ),
    (
        NONE,
        (1, 2),
        "{(start), 1} debug {(start), 1} debug# {(start), 1} debug {(start), 1} display {(start), 1} display# {(start), 1} display",
    ),
    (
        (10, 2),
        NONE,
        "{a, (end)} debug {a, (end)} debug# {a, (end)} debug {a, (end)} display {a, (end)} display# {a, (end)} display",
    ),
    (
        (26, 11),
        (0xabcdef, 3),
        "{1a, abcdef} debug {1a, abcdef} debug# {1a, abcdef} debug {1a, abcdef} display {1a, abcdef} display# {1a, abcdef} display",
    ),
];

#[test]
fn links_print_indexes_in_hexadecimal(rt: HostRuntime) {
    for (prev, next, want) in LINKS {
        let link: Link<ToolPtr, FormatProbe> = Link::new(
            (pointer(prev), pointer(next)),
            FormatProbe,
        );
        let [link, bare] = texts_of_link(rt.alloc(), link);
        reads(&rt, "with generations", link, want);
        reads(&rt, "without", bare, want);
    }
}

#[test]
fn links_print_their_values_after_their_neighbors(rt: HostRuntime) {
    let alloc = rt.alloc();
    let end = LinkNoGen::<ToolPtr, u32>::new((Inx32::new(10), None), 7);
    let texts = format!(in alloc; "{end} {end:?}").ok();
    reads(&rt, "a number", texts, "{a, (end)} 7 {a, (end)} 7");
    let link: Link<ToolPtr, _> = Link::new((pointer((26, 11)), pointer((0xabcdef, 3))), "B");
    let texts = format!(in alloc; "{link} {link:?}").ok();
    reads(&rt, "a text", texts, "{1a, abcdef} B {1a, abcdef} \"B\"");
}
