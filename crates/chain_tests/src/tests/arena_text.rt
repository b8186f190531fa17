//! Tests of the texts of chain arenas.

use super::same;
use super::setup::{SlotOf, Valued, after};
use arena_ptr::{HeapStack, SlotStack, ToolPtr};
use chain_arena::ChainArena;
use std::alloc::Global;
use std::fmt::Debug;
use std::process::Abort;
use test_types::lines::text;

fn sharp_text<T: Debug + Drop>(alloc: Global, outcome: T) -> String {
    match format!(in alloc; "{outcome:#?}") {
        Ok(text) => text,
        Err(_) => String::new(alloc),
    }
}

fn word(n: u32) -> &'static str {
    match n {
        1 => "A",
        2 => "B",
        3 => "C",
        4 => "X",
        _ => "Y",
    }
}

impl Valued for String {
    fn of(alloc: Global, n: u32) -> String {
        match String::from_str(alloc, word(n)) {
            Ok(word) => word,
            Err(_) => String::new(alloc),
        }
    }
}

// Arenas of words, and their plain and alternate texts. A generation is hexadecimal.
const WORDS: [(&str, &str, &str); 4] = [
    ("", "{}", "{}"),
    (
        "Insert 1\nInsert ChainEnd 1 2 2",
        "{P0[1](2): {(start), 2} \"A\", P0[2](2): {1, (end)} \"B\"}",
        "{\n    P0[1](2): {(start), 2} \"A\",\n    P0[2](2): {1, (end)} \"B\",\n}",
    ),
    (
        "Insert 4\nInsert 1\nInsert ChainEnd 1 2 5\nInsert ChainEnd 2 2 2\nRemove 1 2\nInsert ChainEnd 4 2 3",
        "{P0[1](3): {4, (end)} \"C\", P0[2](2): {(start), 4} \"A\", P0[3](2): {(start), (end)} \"Y\", \
        P0[4](2): {2, 1} \"B\"}",
        "{
    P0[1](3): {4, (end)} \"C\",
    P0[2](2): {(start), 4} \"A\",
    P0[3](2): {(start), (end)} \"Y\",
    P0[4](2): {2, 1} \"B\",
}",
    ),
    (
        "SetGeneration 26\nInsert SingleLinkCyclic 1",
        "{P0[1](1a): {1, 1} \"A\"}",
        "{\n    P0[1](1a): {1, 1} \"A\",\n}",
    ),
];

fn check_words<S: SlotStack<Item = SlotOf<String>>>(rt: &impl Abort, alloc: Global) {
    for (calls, plain, sharp) in WORDS {
        let arena: ChainArena<ToolPtr, String, S> = after(alloc, calls);
        same(rt, "by debug", text(alloc, &arena).as_str(), plain);
        same(rt, "alternate", sharp_text(alloc, &arena).as_str(), sharp);
    }
}

#[test]
fn arenas_of_words(rt: HostRuntime) {
    check_words::<HeapStack<SlotOf<String>>>(&rt, rt.alloc());
}
