//! The language of the tests' tables: each line is a call and the text of its reply.
//!
//! A line is `CALL = REPLY`. A call is its name, for an insertion the kind, and numbers. A pointer
//! is its index and its generation. The last number is a new link's value. A line `# ..` makes a
//! new arena.

use crate::numbered::{Numbered, at, index};
use arena_ptr::PtrKey;
use chain_links::InsertKind;
use std::alloc::{AllocError, Global};
use std::fmt::Debug;

/// The calls of lines.
#[derive(Clone, Copy)]
pub enum Do {
    // Reads of the trait of arenas. `Advance` steps as often as its number, `AdvanceFrom` twice.
    // `WithMinCapacity` reports whether a new arena is empty and has that capacity. `Capacities` is
    // the length and the capacity, of links with the counter and the maximum.
    Len,
    IsEmpty,
    HasCapacity,
    Maximum,
    Counter,
    Contains,
    Get,
    GetInx,
    Ends,
    Advance,
    WithMinCapacity,
    Capacities,
    AdvanceFrom,
    AdvanceEmpty,
    // Reads of the trait of arenas of links. `Along` steps five times, `AlongAll` to the end, and
    // `AlongEmpty` is one step of an advancer along no chain.
    CanInsert,
    Neighbors,
    NeighborsInx,
    Link,
    LinkNoGen,
    LinkNoGenInx,
    Along,
    AlongAll,
    AlongEmpty,
    // All links, and advancers over arenas that change.
    All,
    Changes,
    // Changes of links. `InsertMany` counts the links inserted. `Linked 4 1 2 0 3 3` inserts four
    // lone links, and connects 1 with 2 and 3 with itself. `Arrange` has up to four pointers.
    // `WriteChain` adds ten times the number of the closure's call to each value of a chain.
    Insert,
    InsertMany,
    Linked,
    InsertWithin,
    Connect,
    BreakPrev,
    BreakNext,
    Exchange,
    Reverse,
    MoveAfter,
    SpliceAfter,
    Arrange,
    WriteChain,
    RemoveLink,
    Canonical,
    TakeNext,
    // Changes of any arena. `ClearAndReserve` reports whether the capacity is kept, `CompressWith`
    // the closure's arguments. A plain arena has `Insert`, `InsertMany` and `InsertWithin`, too.
    Write,
    WriteInx,
    Replace,
    Remove,
    RemoveInx,
    Invalidate,
    Clear,
    ClearAndReserve,
    Reserve,
    Compress,
    CompressWith,
    // Transfers of all links, with a generation, to other pointers. The targets are one with two
    // links, an empty one where each value is 5, and two that refuse.
    CarryOut,
    CarryAsFive,
    CarryToFull,
    CarryToBare,
    // Calls of a plain arena. `InsertByTrait` and `WithinByTrait` are those of its trait, and
    // `InsertForwarded` inserts into a forwarding arena over a new one, by each of the two. A vacant
    // entry is filled, or dropped. `Slots` counts the slots,
    // `Entries` lists the entries, and `Drain` leaves no entry. `Compact` moves an entry to a
    // second pointer, and `CompactWriting` first overwrites its value. `CopyHole` copies three
    // entries without the second.
    Generation,
    SetGeneration,
    IncGeneration,
    InsertByTrait,
    WithinByTrait,
    InsertForwarded,
    InsertByEntry,
    DropEntry,
    Slots,
    Entries,
    Drain,
    Compact,
    CompactWriting,
    DropCompactor,
    ForgetCompactor,
    CopyHole,
    // Inherent calls of an arena of links. `DrainTwo` reports whether the counter overflows at the
    // first two links of a drain, `DrainTaking` is the call of lists. `CarryChain` transfers a chain
    // to an arena with two links and a hole, `CarryChainToFull` to one with a maximum of three.
    DrainTwo,
    RemoveLinkInx,
    DrainTaking,
    CarryChain,
    CarryChainToFull,
    // The text of the arena, all its slots, a clone with its next link, and a copy of a chain of so
    // many links without the second.
    Debug,
    SlotsListed,
    Clone,
    CopyOver,
    // Values by valid pointers and indexes, walks, and loops over all links. `AlongBack` is an
    // advancer backwards; the link of the second pointer is removed after its first step.
    Value,
    WriteValue,
    WriteValueInx,
    Walk,
    WalkBack,
    AlongBack,
    Starts,
    Chains,
    Values,
    Links,
    LinksByReference,
    LinksUsedUp,
    Indexes,
    // Drains of a chain or of all links, whole or up to a first link and then dropped or forgotten.
    DrainChain,
    DrainChainOne,
    ForgetChainDrain,
    DrainOne,
    ForgetDrain,
    RemoveAll,
    // Vacant entries: forgotten, refused by growth and within the capacity, and filled. An
    // insertion after `can_insert`.
    ForgetEntry,
    EntryRefusals,
    InsertByAnyEntry,
    InsertIfAllowed,
    // Canonical compressions: placed links, all work, and moves by a closure and as a list.
    Placed,
    Counted,
    MovesVisited,
    MovesListed,
    // Calls that are tested with refused allocations: a full chain, holes, a transfer of lone
    // links, and two calls as one list.
    Fill,
    Dig,
    CarryIn,
    TwoCalls,
}

macro_rules! named {
    ($($name:ident)*) => { [$((stringify!($name), Do::$name)),*] };
}

// The names in tables, since listing a constant costs the square of its size.
const READS: [(&str, Do); 14] = named!(
    Len IsEmpty HasCapacity Maximum Counter Contains Get GetInx Ends Advance WithMinCapacity
    Capacities AdvanceFrom AdvanceEmpty
);

const LINK_READS: [(&str, Do); 11] = named!(
    CanInsert Neighbors NeighborsInx Link LinkNoGen LinkNoGenInx Along AlongAll AlongEmpty All
    Changes
);

const LINK_CHANGES: [(&str, Do); 16] = named!(
    Insert InsertMany Linked InsertWithin Connect BreakPrev BreakNext Exchange Reverse MoveAfter
    SpliceAfter Arrange WriteChain RemoveLink Canonical TakeNext
);

const CHANGES: [(&str, Do); 15] = named!(
    Write WriteInx Replace Remove RemoveInx Invalidate Clear ClearAndReserve Reserve Compress
    CompressWith CarryOut CarryAsFive CarryToFull CarryToBare
);

const PLAIN_CALLS: [(&str, Do); 16] = named!(
    Generation SetGeneration IncGeneration InsertByTrait WithinByTrait InsertForwarded InsertByEntry
    DropEntry Slots Entries Drain Compact CompactWriting DropCompactor ForgetCompactor CopyHole
);

const OWN_READS: [(&str, Do); 21] = named!(
    DrainTwo RemoveLinkInx DrainTaking CarryChain CarryChainToFull Debug SlotsListed Clone CopyOver
    Value WriteValue WriteValueInx Walk WalkBack AlongBack Starts Chains Values Links
    LinksByReference LinksUsedUp
);

const OWN_CALLS: [(&str, Do); 19] = named!(
    Indexes DrainChain DrainChainOne ForgetChainDrain DrainOne ForgetDrain RemoveAll ForgetEntry
    EntryRefusals InsertByAnyEntry InsertIfAllowed Placed Counted MovesVisited MovesListed Fill Dig
    CarryIn TwoCalls
);

/// The words of a call.
#[derive(Clone, Copy)]
pub struct Words<'a> {
    /// The name.
    pub name: &'a str,
    /// The kind of an insertion.
    pub kind: &'a str,
    /// The first eight numbers.
    pub numbers: [u32; 8],
    /// The last number.
    pub last: u32,
}

/// A call and its arguments: a kind, two pointers, two indexes, the first number, the last one, and
/// the first eight.
pub struct Body<P, I> {
    /// The call.
    pub call: Do,
    /// The kind of an insertion.
    pub kind: InsertKind<P, I>,
    /// The first pointer.
    pub p: P,
    /// The second pointer.
    pub q: P,
    /// The first index.
    pub i: I,
    /// The second index.
    pub j: I,
    /// The first number.
    pub n: u32,
    /// The last number.
    pub t: u32,
    /// The first eight numbers.
    pub numbers: [u32; 8],
}

// By hand, since a derived clone copies field by field, which costs more to prove than all else
// here.
impl<P: Copy, I: Copy> Clone for Body<P, I> {
    fn clone(&self) -> Result<Self, AllocError> {
        Ok(*self)
    }
}

impl<P: Copy, I: Copy> Copy for Body<P, I> {}

/// A call on an arena of these pointers.
pub type ParsedCall<P> = Body<P, <P as PtrKey>::Inx>;

/// Returns the words of a call.
pub fn read(line: &str) -> Words<'_> {
    let mut words = Words {
        name: "",
        kind: "",
        numbers: [0; 8],
        last: 0,
    };
    let mut count = 0usize;
    for word in line.split_whitespace() {
        match word.parse::<u32>() {
            Ok(number) => {
                if let Some(place) = words.numbers.get_mut(count) {
                    *place = number;
                    count += 1;
                }
                words.last = number;
            }
            Err(_) if words.name.is_empty() => words.name = word,
            Err(_) => words.kind = word,
        }
    }
    words
}

fn found(table: &[(&str, Do)], name: &str) -> Option<Do> {
    for (word, call) in table {
        if *word == name {
            return Some(*call);
        }
    }
    None
}

fn call_of(name: &str) -> Option<Do> {
    for table in [
        &READS[..],
        &LINK_READS,
        &LINK_CHANGES,
        &CHANGES,
        &PLAIN_CALLS,
        &OWN_READS,
        &OWN_CALLS,
    ] {
        if let Some(call) = found(table, name) {
            return Some(call);
        }
    }
    None
}

// Returns the kind of an insertion by pointers. An empty word is a lone link.
fn kind_of<P: Copy, I: Copy>(kind: &str, p: P, q: P, i: I, j: I) -> Option<InsertKind<P, I>> {
    match kind {
        "" | "Disconnected" => Some(InsertKind::Disconnected),
        "SingleLinkCyclic" => Some(InsertKind::SingleLinkCyclic),
        "ChainEnd" => Some(InsertKind::ChainEnd(p)),
        "ChainStart" => Some(InsertKind::ChainStart(p)),
        "NextTo" => Some(InsertKind::NextTo(p)),
        "PrevTo" => Some(InsertKind::PrevTo(p)),
        "AtInterlink" => Some(InsertKind::AtInterlink {
            next_to: p,
            prev_to: q,
        }),
        "Bridge" => Some(InsertKind::Bridge { end: p, start: q }),
        _ => kind_by_index_of(kind, i, j),
    }
}

fn kind_by_index_of<P: Copy, I: Copy>(kind: &str, i: I, j: I) -> Option<InsertKind<P, I>> {
    match kind {
        "ChainEndInx" => Some(InsertKind::ChainEndInx(i)),
        "ChainStartInx" => Some(InsertKind::ChainStartInx(i)),
        "NextToInx" => Some(InsertKind::NextToInx(i)),
        "PrevToInx" => Some(InsertKind::PrevToInx(i)),
        "AtInterlinkInx" => Some(InsertKind::AtInterlinkInx {
            next_to: i,
            prev_to: j,
        }),
        "BridgeInx" => Some(InsertKind::BridgeInx { end: i, start: j }),
        _ => None,
    }
}

// Returns a call with these numbers, if there is such a kind.
fn with_numbers<P: Numbered>(
    call: Do,
    kind: &str,
    numbers: [u32; 8],
    t: u32,
) -> Option<ParsedCall<P>> {
    let [n, g, l, h, ..] = numbers;
    let (p, q) = (at::<P>((n, g)), at::<P>((l, h)));
    let (i, j) = (index::<P>(n), index::<P>(g));
    match kind_of(kind, p, q, i, j) {
        Some(kind) => Some(Body {
            call,
            kind,
            p,
            q,
            i,
            j,
            n,
            t,
            numbers,
        }),
        None => None,
    }
}

/// Returns the third pointer of a call.
pub fn third_of<P: Numbered>(parsed: &ParsedCall<P>) -> P {
    let [_, _, _, _, n, g, ..] = parsed.numbers;
    at::<P>((n, g))
}

/// Returns the call of a line, if there is such a call and such a kind.
pub fn parse_call<P: Numbered>(call: &str) -> Option<ParsedCall<P>> {
    let words = read(call);
    match call_of(words.name) {
        Some(call) => with_numbers(call, words.kind, words.numbers, words.last),
        None => None,
    }
}

/// Returns a reply as `Debug` writes it, on a second attempt if the first allocation fails.
///
/// After both it is empty, which no line expects.
pub fn text<T: Debug + Drop>(alloc: Global, reply: T) -> String {
    for _ in 0..2 {
        if let Ok(text) = format!(in alloc; "{reply:?}") {
            return text;
        }
    }
    String::new(alloc)
}
