//! Tests of the program over readers and writers in memory.
mod faults;
mod io_faults;

ghost use Rattle.std.specs.Prelude.{◌≡◌, ℕ, List, ◌∷◌, [], codes, true, Some, None, option_map};
ghost use Rattle.chain_laws.specs.declared.insert_kind.InsertKind.TheVariants.{Disconnected};
ghost use Rattle.chain_laws.specs.declared.insert_kind.InsertKind.TheVariants.{SingleLinkCyclic};
ghost use Rattle.chain_laws.specs.declared.insert_kind.InsertKind.TheVariants.{ChainEnd, NextToInx};
ghost use Rattle.chain_laws.specs.declared.insert_kind.InsertKind.TheVariants.{BridgeInx};
ghost use Rattle.arena_ptr.specs.declared.index.inx32.Inx32.{Inx32};
ghost use Rattle.arena_ptr.specs.declared.tool_ptr.ToolPtr.{ToolPtr};
ghost use Rattle.chain_arena.specs.declared.calls.Call.TheVariants.{Insert, InsertWithin, Remove};
ghost use Rattle.chain_arena.specs.declared.calls.Call.TheVariants.{RemoveInx, DrainChain};
ghost use Rattle.chain_arena.specs.declared.calls.Call.TheVariants.{Compress, CompressCanonical};
ghost use Rattle.chain_arena.specs.declared.calls.Call.TheVariants.{Reserve, IncGeneration};
ghost use Rattle.chain_commands.specs.declared.command.Command.TheVariants.{Change, Arrange, Len, Moves, Transfer, Other};
ghost use Rattle.chain_commands.specs.declared.command.Line.TheVariants.{Blank, Bad, Good};
ghost use Rattle.chain_commands.specs.Words.{lines_of, whole_lines, without_return, words_of};
ghost use Rattle.chain_commands.specs.Words.{number_of, index_word, pointer_of};
ghost use Rattle.chain_commands.specs.Commands.{line_of};
ghost use Rattle.chain_commands.specs.Transcripts.{AreComplete};

use arena_base::{ArenaSlot, ArenaTrait};
use arena_ptr::{
    ChunkStack, HeapStack, LimitStack, LimitedStack, SetMaxCapacity, SlotStack, ToolPtr,
};
use chain_arena::{ChainArena, LinkNoGen};
use chain_commands::{ToolError, run, run_on};
use std::alloc::Global;
use std::process::Abort;

type Slot = ArenaSlot<ToolPtr, LinkNoGen<ToolPtr, u32>>;

/// The arena of a run. Code for one stack costs its proof twice as much as code for any.
type LinksOver<S> = ChainArena<ToolPtr, u32, S>;

fn same(rt: &impl Abort, what: &str, got: &[u8], want: &[u8]) {
    assert_eq!(rt; got, want, "{what}");
}

fn holds(rt: &impl Abort, what: &str, condition: bool) {
    assert!(rt; condition, "{what}");
}

/// Runs the program on bytes, and checks that it reads all and writes `output`.
fn check(rt: &impl Abort, alloc: Global, what: &str, input: &[u8], output: &[u8]) {
    let mut reader = input;
    let mut written = Vec::new(alloc);
    let result = run(alloc, &mut reader, &mut written);
    same(rt, what, written.as_slice(), output);
    holds(rt, what, result.is_ok() && reader.is_empty());
}

fn check_texts(rt: &impl Abort, alloc: Global, rows: &[(&str, &str)]) {
    for (input, output) in rows {
        check(rt, alloc, input, input.as_bytes(), output.as_bytes());
    }
}

/// Runs a text on an arena. Returns the result and the output.
fn carried_out<S: SlotStack<Item = Slot>>(
    alloc: Global,
    arena: &mut LinksOver<S>,
    input: &str,
) -> (Result<(), ToolError>, Vec<u8>) {
    let mut reader = input.as_bytes();
    let mut written = Vec::new(alloc);
    let mut other = LinksOver::<S>::new(alloc);
    let result = run_on(alloc, arena, &mut other, &mut reader, &mut written);
    (result, written)
}

/// Runs a text on an arena, and checks the output.
fn check_on<S: SlotStack<Item = Slot>>(
    rt: &impl Abort,
    alloc: Global,
    arena: &mut LinksOver<S>,
    input: &str,
    output: &str,
) {
    let (result, written) = carried_out(alloc, arena, input);
    same(rt, input, written.as_slice(), output.as_bytes());
    holds(rt, input, result.is_ok());
}

/// The definitions on small texts.
fn definitions()
    ensures lines { (lines_of (97 ∷ 10 ∷ 10 ∷ 98 ∷ []) ≡ (97 ∷ []) ∷ [] ∷ (98 ∷ []) ∷ [])
        × (lines_of [] ≡ [] ∷ [])
        × (lines_of (97 ∷ 10 ∷ []) ≡ (97 ∷ []) ∷ [] ∷ [])
        × (whole_lines (97 ∷ 10 ∷ 98 ∷ []) ≡ (97 ∷ []) ∷ [])
        × (without_return (97 ∷ 13 ∷ 13 ∷ []) ≡ 97 ∷ 13 ∷ [])
        × (without_return (13 ∷ 97 ∷ []) ≡ 13 ∷ 97 ∷ []) }
    ensures words { (words_of (codes "  add  7 ") ≡ codes "add" ∷ codes "7" ∷ [])
        × (words_of (codes "   ") ≡ []) }
    ensures numbers { (number_of (codes "007") ≡ Some 7)
        × (number_of (codes "4294967295") ≡ Some 4294967295)
        × (number_of (codes "4294967296") ≡ None)
        × (number_of (codes "00000000007") ≡ None)
        × (number_of (codes "7x") ≡ None)
        × (number_of [] ≡ None) }
    ensures pointers { (option_map (λ p. p.inx.number) (pointer_of (codes "12.3")) ≡ Some 12)
        × (option_map (λ p. p.generation.number) (pointer_of (codes "12.3")) ≡ Some 3)
        × (pointer_of (codes "0.3") ≡ None)
        × (pointer_of (codes "12.0") ≡ None)
        × (pointer_of (codes "1.2.3") ≡ None) }
    ensures insertions { (line_of (codes "add alone 7") ≡ Good (Change (Insert Disconnected 7)))
        × (line_of (codes "addwithin ring 7") ≡ Good (Change (InsertWithin SingleLinkCyclic 7)))
        × ((p : ToolPtr) → pointer_of (codes "1.2") ≡ Some p
        → line_of (codes "add end 1.2 7") ≡ Good (Change (Insert (ChainEnd p) 7)))
        × ((i : Inx32) → index_word (codes "1") ≡ Some i
        → line_of (codes "addwithin after 1 7") ≡ Good (Change (InsertWithin (NextToInx i) 7)))
        × ((i j : Inx32) → index_word (codes "3") ≡ Some i → index_word (codes "1") ≡ Some j
        → line_of (codes "add bridge 3 1 7") ≡ Good (Change (Insert (BridgeInx i j) 7)))
        × (line_of (codes "add between 1.2 1 5") ≡ Bad) }
    ensures removals { ((p : ToolPtr) → pointer_of (codes "1.2") ≡ Some p
        → line_of (codes "remove 1.2") ≡ Good (Change (Remove p)))
        × ((i : Inx32) → index_word (codes "1") ≡ Some i
        → line_of (codes "remove 1") ≡ Good (Change (RemoveInx i)))
        × ((p : ToolPtr) → pointer_of (codes "1.2") ≡ Some p
        → line_of (codes "drain 1.2 3") ≡ Good (Change (DrainChain p 3)))
        × (line_of (codes "drain") ≡ Bad) }
    ensures orders { ((p q : ToolPtr) → pointer_of (codes "1.2") ≡ Some p
        → pointer_of (codes "3.2") ≡ Some q
        → line_of (codes "arrange 3.2 1.2") ≡ Good (Arrange (q ∷ p ∷ [])))
        × (line_of (codes "arrange") ≡ Bad)
        × (line_of (codes "arrange 1") ≡ Bad) }
    ensures others { (line_of (codes " len ") ≡ Good Len)
        × (line_of (codes "compress reset") ≡ Good (Change (Compress true)))
        × (line_of (codes "canonical reset") ≡ Good (Change (CompressCanonical true)))
        × (line_of (codes "moves reset") ≡ Good (Moves true))
        × (line_of (codes "other") ≡ Good Other)
        × ((p : ToolPtr) → pointer_of (codes "1.2") ≡ Some p
        → line_of (codes "transfer 1.2") ≡ Good (Transfer p))
        × (line_of (codes "reserve 9") ≡ Good (Change (Reserve 9)))
        × (line_of (codes "incgen") ≡ Good (Change IncGeneration))
        × (line_of (codes "setgen 0") ≡ Bad)
        × (line_of (codes " ") ≡ Blank) }
    ensures complete { ((lines : List (List ℕ))
        → AreComplete (codes "add alone 2") (Some (codes "5")) lines → lines ≡ [])
        × AreComplete (codes "add alone 2") (Some []) (codes "add alone 2" ∷ []) }
{}

#[test]
fn small_texts() {
    definitions();
}

const TWO_LONE_LINKS_CONNECTED: (&str, &str) = (
    "add alone 10\nadd alone 20\nconnect 1.2 2.2\nchain 1.2\n",
    "at 1.2\nat 2.2\nok\n1.2:10 2.2:20\n",
);

const FIRST_TABLE: (&str, &str) = (
    "add alone 1\nconnect 1.2 1.2\nshow 1.2\nconnect 1.2 1.2\nadd end 1.2 2\nadd alone 2\nadd alone 3\n\
        connect 2.2 3.2\nconnect 3.2 2.2\nchain 3.2\nlen\nbreaknext 3.2\n",
    "at 1.2\nok\nprev 1.2 next 1.2 value 1\nnone\nrefused link\nat 2.2\nat 3.2\n\
        ok\nok\n3.2:3 2.2:2\ncount 3\nok\n",
);

const LINES_AND_WORDS: [(&str, &str); 24] = [
    ("", ""),
    ("\n\n \n", ""),
    ("\r\n  \r\n", ""),
    ("len", "count 0\n"),
    ("len\r", "count 0\n"),
    ("len\n", "count 0\n"),
    ("  len  \n", "count 0\n"),
    ("add  alone   007\r\n", "at 1.2\n"),
    ("len\r\r\n", "bad line\n"),
    ("len\t\n", "bad line\n"),
    ("len\0\n", "bad line\n"),
    ("l\u{e9}n\n", "bad line\n"),
    ("add\talone 1\n", "bad line\n"),
    ("Len\n", "bad line\n"),
    ("chain 1\n", "bad line\n"),
    ("LEN\n", "bad line\n"),
    ("le\n", "bad line\n"),
    ("len 1\n", "bad line\n"),
    ("add alone\n", "bad line\n"),
    ("add alone 1 2\n", "bad line\n"),
    ("connect 1.2\n", "bad line\n"),
    ("connect 1.2 1.2 1.2\n", "bad line\n"),
    ("hello\nlen\n", "bad line\ncount 0\n"),
    ("remove 1.2 1.2\nclear\n", "bad line\nok\n"),
];

const KINDS_AND_VALUES: [(&str, &str); 20] = [
    ("add end 0.2 5\n", "bad line\n"),
    ("add end 0 5\n", "bad line\n"),
    ("add between 1.2 1 5\n", "bad line\n"),
    ("add bridge 1 1.2 5\n", "bad line\n"),
    ("add ring\n", "bad line\n"),
    ("add ring 1 2\n", "bad line\n"),
    ("add end 1.2\n", "bad line\n"),
    ("add end 1.2 2.2 5\n", "bad line\n"),
    ("add between 1.2 5\n", "bad line\n"),
    ("add between 1 2 3 5\n", "bad line\n"),
    ("add sideways 1.2 3\n", "bad line\n"),
    ("add alone 1.2\n", "bad line\n"),
    ("add 3\n", "bad line\n"),
    ("add\n", "bad line\n"),
    ("addwithin 3\n", "bad line\n"),
    ("addwithin alone 1 2\n", "bad line\n"),
    ("addwithin alone 1\n", "refused capacity\n"),
    ("addwithin end 1 1\n", "refused link\n"),
    ("add after 1 1\n", "refused link\n"),
    ("add before 4294967295.2 1\n", "refused link\n"),
];

const KINDS_TABLE: (&str, &str) = (
    "add alone 1\nadd between 1.2 1.2 5\nadd bridge 1.2 1.2 2\nadd before 1 3\nadd between 3 1 4\n\
        chain 2.2\nadd ring 6\nadd after 5.2 7\nshow 5.2\nadd start 5 8\naddwithin end 5.2 9\n",
    "at 1.2\nrefused link\nat 2.2\nat 3.2\nat 4.2\n2.2:2 3.2:3 4.2:4 1.2:1\nat 5.2\nat 6.2\n\
        prev 6.2 next 6.2 value 6\nrefused link\nrefused link\n",
);

const A_CHAIN_GROWN_JOINED_AND_DRAINED: (&str, &str) = (
    "add alone 1\nadd alone 2\nconnect 1.2 2.2\nadd end 1.2 9\nadd end 2.2 4\nadd between 2.2 3.2 3\n\
        add alone 5\nadd end 5.2 6\nadd end 6.2 7\nconnect 3.2 5.2\nchain 1.2\nremove 3.2\nchain 1.2\n\
        drain 5.2 0\nlen\nadd alone 8\n",
    "at 1.2\nat 2.2\nok\nrefused link\nat 3.2\nat 4.2\nat 5.2\nat 6.2\nat 7.2\nok\n\
        1.2:1 2.2:2 4.2:3 3.2:4 5.2:5 6.2:6 7.2:7\nvalue 4\n1.2:1 2.2:2 4.2:3 5.2:5 6.2:6 7.2:7\n\
        count 0\ncount 0\nat 1.9\n",
);

const EACH_KIND: &str = "at 1.2\nat 2.2\nat 3.2\nat 4.2\nat 5.2\nat 6.2\nat 7.2\nat 8.2\n\
        3.2:3 4.2:4 1.2:1 6.2:6 5.2:5 2.2:2 7.2:7\n8.2:8\n";

const EACH_KIND_BY_POINTER: (&str, &str) = (
    "add alone 1\nadd end 1.2 2\nadd start 1.2 3\nadd after 3.2 4\nadd before 2.2 5\nadd between 1.2 5.2 6\n\
        add bridge 2.2 3.2 7\nadd ring 8\nchain 3.2\nchain 8.2\n",
    EACH_KIND,
);

const EACH_KIND_BY_INDEX: (&str, &str) = (
    "add alone 1\nadd end 1 2\nadd start 1 3\nadd after 3 4\nadd before 2 5\nadd between 1 5 6\n\
        add bridge 2 3 7\nadd ring 8\nchain 3.2\nchain 8.2\n",
    EACH_KIND,
);

const NUMBERS_AND_POINTERS: [(&str, &str); 21] = [
    (
        "add alone 4294967295\nshow 1.2\n",
        "at 1.2\nprev - next - value 4294967295\n",
    ),
    ("add alone 4294967296\n", "bad line\n"),
    ("add alone 0000000007\nchain 1.2\n", "at 1.2\n1.2:7\n"),
    ("add alone 00000000007\n", "bad line\n"),
    ("add alone -1\n", "bad line\n"),
    ("add alone +1\n", "bad line\n"),
    ("add alone 1x\n", "bad line\n"),
    ("show 0.2\n", "bad line\n"),
    ("show 1.0\n", "bad line\n"),
    ("show 1.1\n", "none\n"),
    ("chain 1.2\n", "none\n"),
    ("drain 9.9 1\n", "none\n"),
    ("connect 1.2 1.2\n", "none\n"),
    ("show 4294967295.4294967295\n", "none\n"),
    ("show 4294967296.2\n", "bad line\n"),
    ("show 1\n", "bad line\n"),
    ("show 1.\n", "bad line\n"),
    ("show .2\n", "bad line\n"),
    ("show .\n", "bad line\n"),
    ("show 1.2.3\n", "bad line\n"),
    (
        "add alone 5\nshow 01.002\n",
        "at 1.2\nprev - next - value 5\n",
    ),
];

/// Returns a line of a command, spaces up to `len` bytes, and an end.
fn padded_line(rt: &impl Abort, alloc: Global, command: &str, len: usize, end: &str) -> String {
    format!(in alloc; "{command:len$}{end}").expect(rt, "memory")
}

/// A name, a command, the length of its line, the end of the line, and the output.
type FilledLine<'a> = (&'a str, &'a str, usize, &'a str, &'a str);

fn check_filled(rt: &impl Abort, alloc: Global, line: &FilledLine<'_>) {
    let (what, command, len, end, output) = line;
    let input = padded_line(rt, alloc, command, *len, end);
    holds(rt, what, input.len().saturating_sub(end.len()) == *len);
    check(rt, alloc, what, input.as_bytes(), output.as_bytes());
}

/// Lines of up to 200 bytes, and longer ones.
const FILLED_LINES: [FilledLine<'static>; 8] = [
    ("200 bytes", "len", 200, "", "count 0\n"),
    ("201 bytes", "len", 201, "", "bad line\n"),
    ("200 bytes with a return", "len", 199, "\r\n", "count 0\n"),
    ("201 bytes with a return", "len", 200, "\r\n", "bad line\n"),
    (
        "200 bytes and a line",
        "len",
        200,
        "\nlen\n",
        "count 0\ncount 0\n",
    ),
    ("200 spaces", "", 200, "\n", ""),
    ("201 spaces", "", 201, "\n", "bad line\n"),
    ("70000 spaces", "", 70000, "\nlen\n", "bad line\ncount 0\n"),
];

#[test]
fn lines_of_200_bytes_and_more(rt: HostRuntime) {
    for line in &FILLED_LINES {
        check_filled(&rt, rt.alloc(), line);
    }
}

const REMOVAL_TABLE: (&str, &str) = (
    "add alone 1\nadd alone 2\nconnect 1.2 2.2\nconnect 2.2 1.2\nremove 2.2\nshow 1.2\nadd alone 9\n\
        len\nremove 2.2\nremove 1.2 \nremove 1\nremove\n",
    "at 1.2\nat 2.2\nok\nok\nvalue 2\nprev 1.2 next 1.2 value 1\nat 2.3\n\
        count 2\nnone\nvalue 1\nnone\nbad line\n",
);

const CUTTING_TABLE: (&str, &str) = (
    "add alone 1\nadd end 1 2\nadd end 2 3\nadd end 3 4\nexchange 1.2 2.2\nchain 1.2\nexchange 1.2 2.2\n\
        chain 1.2\nbreaknext 2.2\nbreakprev 1.2\nexchange 4.2 1.2\ninvalidate 3.2\nshow 4.2\n\
        drain 4.2 1\nlen\nadd alone 9\ndrain 1.2 9\nclear\nadd alone 1\nadd end 1.8 2\nadd end 2.8 3\n\
        reverse 2.8\nchain 3.8\nmoveafter 3.8 1.8\nchain 2.8\nmoveafter 2.8 2.8\nreverse 3.2\n\
        spliceafter 3.8 2.8 1.8\nchain 3.8\nspliceafter 1.8 3.8 1.8\narrange 2.8 3.8 1.8\nchain 2.8\n\
        arrange 1.8\narrange 1.8 1.8\narrange 3.8 9.8\nchain 2.8\n",
    "at 1.2\nat 2.2\nat 3.2\nat 4.2\nok\n1.2:1 3.2:3 4.2:4\nok\n1.2:1 2.2:2 3.2:3 4.2:4\nok\nnone\nnone\n\
        at 3.3\nprev 3.3 next - value 4\ncount 1\ncount 2\nat 3.5\ncount 2\nok\nat 1.8\nat 2.8\nat 3.8\nok\n\
        3.8:3 2.8:2 1.8:1\nok\n2.8:2 1.8:1 3.8:3\nnone\nnone\nok\n\
        3.8:3 2.8:2 1.8:1\nnone\nok\n2.8:2 3.8:3 1.8:1\nok\nnone\nnone\n2.8:2 3.8:3 1.8:1\n",
);

const COMPRESSION_TABLE: (&str, &str) = (
    "add alone 1\nadd alone 2\nadd end 2.2 3\nremove 1.2\ncompress keep\nchain 1.4\ncompress reset\n\
        chain 2.2\nsetgen 4294967295\ncompress reset\nsetgen 4294967295\ncompress keep\nchain 1.2\n\
        clear\ncompress keep\nadd alone 4\n",
    "at 1.2\nat 2.2\nat 3.2\nvalue 1\nok\n1.4:2 2.4:3\nok\n2.2:3 1.2:2\nok\nok\nok\nok overflow\n\
        1.2:2 2.2:3\nok\nok\nat 1.3\n",
);

const CANONICAL_TABLE: (&str, &str) = (
    "add alone 1\nadd alone 2\nadd end 1.2 3\nadd end 2.2 4\nremove 1.2\nadd end 4.2 5\ncanonical keep\n\
        chain 1.4\nshow 4.4\ncanonical reset\nchain 2.2\nsetgen 4294967295\ncanonical keep\n",
    "at 1.2\nat 2.2\nat 3.2\nat 4.2\nvalue 1\nat 1.3\nok\n1.4:2 2.4:4 3.4:5\nprev - next - value 3\n\
        ok\n2.2:4 3.2:5 1.2:2\nok\nok overflow\n",
);

const MOVES_TABLE: (&str, &str) = (
    "add alone 5\nadd alone 6\nadd start 1.2 7\nmoves keep\nmoves reset\nclear\nmoves keep\nmoves\n\
        add alone 8\nsetgen 4294967295\nmoves keep\n",
    "at 1.2\nat 2.2\nat 3.2\nmoved 3 3.2>1.3 1.2>2.3 2.2>3.3\nmoved 3 1.3>1.2 2.3>2.2 3.3>3.2\nok\nmoved 0\n\
        bad line\nat 1.3\nok\nmoved 1 1.3>1.2 overflow\n",
);

const OVERFLOW_TABLE: (&str, &str) = (
    "add alone 1\nsetgen 4294967295\nadd end 1.2 2\nshow 1.2\ninvalidate 1.2\nincgen\nremove 2.4294967295\n\
        setgen 0\nreserve 0\nreserve 9\nreserve 4294967296\n",
    "at 1.2\nok\nat 2.4294967295\nprev - next 2.4294967295 value 1\nat 1.2 overflow\nok\nvalue 2\n\
        bad line\nok\nok\nbad line\n",
);

const REMOVED_BY_INDEX: (&str, &str) = (
    "add alone 1\nadd end 1.2 2\nremove 1\nremove 1\nremove 1.2\nshow 2.2\nclear\nclear\nadd alone 3\n",
    "at 1.2\nat 2.2\nvalue 1\nnone\nnone\nprev - next - value 2\nok\nok\nat 1.4\n",
);

/// A link is moved from the second arena to the first, and a chain back.
const TRANSFER_TABLE: (&str, &str) = (
    "add alone 10\nadd end 1.2 20\nother\nlen\nadd alone 30\ntransfer 1.2\nlen\nother\nchain 1.2\nshow 3.2\n\
        transfer 2.2\ntransfer 2.2\nlen\nother\nchain 2.3\ntransfer\ntransfer 2\nother 1\n",
    "at 1.2\nat 2.2\nok\ncount 0\nat 1.2\nat 3.2\ncount 0\nok\n1.2:10 2.2:20\nprev - next - value 30\n\
        at 1.3\nnone\ncount 1\nok\n2.3:10 1.3:20\nbad line\nbad line\nbad line\n",
);

const MALFORMED_STEPS: [(&str, &str); 29] = [
    ("reserve\n", "bad line\n"),
    ("reserve x\n", "bad line\n"),
    ("setgen\n", "bad line\n"),
    ("setgen 4294967296\n", "bad line\n"),
    ("incgen 1\n", "bad line\n"),
    ("reserve 1 2\n", "bad line\n"),
    ("breaknext 1\n", "bad line\n"),
    ("breakprev\n", "bad line\n"),
    ("exchange 1.2\n", "bad line\n"),
    ("exchange 1.2 1\n", "bad line\n"),
    ("reverse 1\n", "bad line\n"),
    ("moveafter 1.2\n", "bad line\n"),
    ("spliceafter 1.2 1.2\n", "bad line\n"),
    ("arrange\n", "bad line\n"),
    ("arrange 1\n", "bad line\n"),
    ("arrange 1.2 2.2 3\n", "bad line\n"),
    ("invalidate 1\n", "bad line\n"),
    ("drain 1.2\n", "bad line\n"),
    ("drain 1 2\n", "bad line\n"),
    ("drain 1.2 x\n", "bad line\n"),
    ("drain 1.2 4294967296\n", "bad line\n"),
    ("drain 1.2 1 1\n", "bad line\n"),
    ("clear 1\n", "bad line\n"),
    ("compress\n", "bad line\n"),
    ("compress x\n", "bad line\n"),
    ("compress keep keep\n", "bad line\n"),
    ("remove 4294967296\n", "bad line\n"),
    ("remove 0\n", "bad line\n"),
    ("remove 1 2\n", "bad line\n"),
];

/// Steps at the greatest generation.
const OVERFLOWS: [(&str, &str); 6] = [
    (
        "setgen 4294967295\nadd alone 5\nremove 1.4294967295\nadd alone 6\n",
        "ok\nat 1.4294967295\nvalue 5 overflow\nat 1.2\n",
    ),
    (
        "add alone 5\nadd end 1.2 6\nsetgen 4294967295\ninvalidate 2.2\nshow 1.2\n",
        "at 1.2\nat 2.2\nok\nat 2.2 overflow\nprev - next 2.2 value 5\n",
    ),
    (
        "add alone 5\nadd end 1.2 6\nsetgen 4294967295\nremove 1\nlen\n",
        "at 1.2\nat 2.2\nok\nvalue 5 overflow\ncount 1\n",
    ),
    (
        "add alone 5\nadd end 1.2 6\nsetgen 4294967295\ndrain 1.2 1\nlen\nadd alone 7\n",
        "at 1.2\nat 2.2\nok\ncount 1\ncount 0\nat 2.3\n",
    ),
    (
        "add alone 5\nadd end 1.2 6\nsetgen 4294967295\nclear\nclear\nadd alone 7\n",
        "at 1.2\nat 2.2\nok\nok overflow\nok\nat 1.2\n",
    ),
    (
        "add alone 5\nadd end 1.2 6\nsetgen 4294967295\ncompress keep\ncompress keep\nchain 1.3\n",
        "at 1.2\nat 2.2\nok\nok overflow\nok\n1.3:5 2.3:6\n",
    ),
];

/// Texts that run one after another on an arena with a maximum of two. The arenas are one that has
/// a link already, a full one, one of capacity two, and a full one to which a chain is moved.
const LIMITED: [&[(&str, &str)]; 4] = [
    &[
        ("add alone 5\n", "at 1.2\n"),
        ("add alone 6\nconnect 2.2 1.2\n", "at 2.2\nok\n"),
        ("chain 2.2\n", "2.2:6 1.2:5\n"),
    ],
    &[(
        "add alone 1\nadd alone 2\nadd alone 3\nremove 1.2\nadd alone 3\nlen\n",
        "at 1.2\nat 2.2\nrefused limit\nvalue 1\nat 1.3\ncount 2\n",
    )],
    &[(
        "reserve 2\naddwithin alone 1\naddwithin alone 2\naddwithin alone 3\nadd alone 3\nadd end 9.9 3\n\
        remove 1.2\naddwithin alone 3\n",
        "ok\nat 1.2\nat 2.2\nrefused capacity\nrefused limit\nrefused link\nvalue 1\nat 1.3\n",
    )],
    &[(
        "add alone 1\nadd alone 2\nother\nadd alone 3\ntransfer 1.2\nlen\nother\nlen\n",
        "at 1.2\nat 2.2\nok\nat 1.2\nrefused limit\ncount 1\nok\ncount 2\n",
    )],
];

fn check_limited<S: LimitStack<Item = Slot>>(
    rt: &impl Abort,
    alloc: Global,
    texts: &[(&str, &str)],
) {
    let mut arena = LinksOver::<S>::new(alloc);
    let _ = arena.set_max_capacity(2);
    for (input, output) in texts {
        check_on(rt, alloc, &mut arena, input, output);
    }
}

#[test]
fn limited_arenas(rt: HostRuntime) {
    for texts in &LIMITED {
        check_limited::<LimitedStack<Slot>>(&rt, rt.alloc(), texts);
    }
}

/// Lines of every sort, also without words, of 201 spaces, and without a line feed at the end.
const LINES_OF_EVERY_SORT: (&str, &str) = (
    "add end 0.2 5\nadd  alone   007\r\n\nadd between 1.2 1 5\n                                                                                                                                                                                                         \n\
    remove 4294967296.2\nremove 1\nchain 1.2\nlen",
    "bad line\nat 1.2\nbad line\nbad line\nbad line\nvalue 7\nnone\ncount 0\n",
);

/// The sample of the README.
const SAMPLE: (&str, &str) = (
    "add alone 10\nadd alone 20\nconnect 1.2 2.2\nadd end 1.2 40\nadd end 2.2 40\nchain 1.2\nshow 2.2\nremove 2.2\n\
    chain 3.2\nshow 2.2\nhello\n",
    "at 1.2\nat 2.2\nok\nrefused link\nat 3.2\n1.2:10 2.2:20 3.2:40\nprev 1.2 next 3.2 value 20\nvalue 20\n\
    3.2:40 1.2:10\nnone\nbad line\n",
);

/// Whole runs: a text, and the output.
static RUNS: [(&str, &str); 16] = [
    SAMPLE,
    LINES_OF_EVERY_SORT,
    TWO_LONE_LINKS_CONNECTED,
    FIRST_TABLE,
    KINDS_TABLE,
    A_CHAIN_GROWN_JOINED_AND_DRAINED,
    REMOVAL_TABLE,
    CUTTING_TABLE,
    COMPRESSION_TABLE,
    CANONICAL_TABLE,
    MOVES_TABLE,
    TRANSFER_TABLE,
    OVERFLOW_TABLE,
    REMOVED_BY_INDEX,
    EACH_KIND_BY_POINTER,
    EACH_KIND_BY_INDEX,
];

/// Returns the runs. Only this body names the table, since naming it costs by its rows.
fn run_rows() -> &'static [(&'static str, &'static str)] {
    &RUNS
}

// All other tables, as one constant that one body names.
const TABLES: [&[(&str, &str)]; 5] = [
    &OVERFLOWS,
    &LINES_AND_WORDS,
    &KINDS_AND_VALUES,
    &NUMBERS_AND_POINTERS,
    &MALFORMED_STEPS,
];

#[test]
fn texts_and_what_is_written(rt: HostRuntime) {
    check_texts(&rt, rt.alloc(), run_rows());
    for table in &TABLES {
        check_texts(&rt, rt.alloc(), table);
    }
}

fn check_runs<S: SlotStack<Item = Slot>>(rt: &impl Abort, alloc: Global) {
    for (input, output) in run_rows() {
        check_on(rt, alloc, &mut LinksOver::<S>::new(alloc), input, output);
    }
}

/// A chain of 130 links over three blocks, each with its index as its value. The first 64, a whole
/// block, are removed.
const FIRST_BLOCK_EMPTIED: (&str, &str) = (
    "add alone 1\nadd end 1.2 2\nadd end 2.2 3\nadd end 3.2 4\nadd end 4.2 5\nadd end 5.2 6\n\
    add end 6.2 7\nadd end 7.2 8\nadd end 8.2 9\nadd end 9.2 10\nadd end 10.2 11\n\
    add end 11.2 12\nadd end 12.2 13\nadd end 13.2 14\nadd end 14.2 15\nadd end 15.2 16\n\
    add end 16.2 17\nadd end 17.2 18\nadd end 18.2 19\nadd end 19.2 20\nadd end 20.2 21\n\
    add end 21.2 22\nadd end 22.2 23\nadd end 23.2 24\nadd end 24.2 25\nadd end 25.2 26\n\
    add end 26.2 27\nadd end 27.2 28\nadd end 28.2 29\nadd end 29.2 30\nadd end 30.2 31\n\
    add end 31.2 32\nadd end 32.2 33\nadd end 33.2 34\nadd end 34.2 35\nadd end 35.2 36\n\
    add end 36.2 37\nadd end 37.2 38\nadd end 38.2 39\nadd end 39.2 40\nadd end 40.2 41\n\
    add end 41.2 42\nadd end 42.2 43\nadd end 43.2 44\nadd end 44.2 45\nadd end 45.2 46\n\
    add end 46.2 47\nadd end 47.2 48\nadd end 48.2 49\nadd end 49.2 50\nadd end 50.2 51\n\
    add end 51.2 52\nadd end 52.2 53\nadd end 53.2 54\nadd end 54.2 55\nadd end 55.2 56\n\
    add end 56.2 57\nadd end 57.2 58\nadd end 58.2 59\nadd end 59.2 60\nadd end 60.2 61\n\
    add end 61.2 62\nadd end 62.2 63\nadd end 63.2 64\nadd end 64.2 65\nadd end 65.2 66\n\
    add end 66.2 67\nadd end 67.2 68\nadd end 68.2 69\nadd end 69.2 70\nadd end 70.2 71\n\
    add end 71.2 72\nadd end 72.2 73\nadd end 73.2 74\nadd end 74.2 75\nadd end 75.2 76\n\
    add end 76.2 77\nadd end 77.2 78\nadd end 78.2 79\nadd end 79.2 80\nadd end 80.2 81\n\
    add end 81.2 82\nadd end 82.2 83\nadd end 83.2 84\nadd end 84.2 85\nadd end 85.2 86\n\
    add end 86.2 87\nadd end 87.2 88\nadd end 88.2 89\nadd end 89.2 90\nadd end 90.2 91\n\
    add end 91.2 92\nadd end 92.2 93\nadd end 93.2 94\nadd end 94.2 95\nadd end 95.2 96\n\
    add end 96.2 97\nadd end 97.2 98\nadd end 98.2 99\nadd end 99.2 100\nadd end 100.2 101\n\
    add end 101.2 102\nadd end 102.2 103\nadd end 103.2 104\nadd end 104.2 105\n\
    add end 105.2 106\nadd end 106.2 107\nadd end 107.2 108\nadd end 108.2 109\n\
    add end 109.2 110\nadd end 110.2 111\nadd end 111.2 112\nadd end 112.2 113\n\
    add end 113.2 114\nadd end 114.2 115\nadd end 115.2 116\nadd end 116.2 117\n\
    add end 117.2 118\nadd end 118.2 119\nadd end 119.2 120\nadd end 120.2 121\n\
    add end 121.2 122\nadd end 122.2 123\nadd end 123.2 124\nadd end 124.2 125\n\
    add end 125.2 126\nadd end 126.2 127\nadd end 127.2 128\nadd end 128.2 129\n\
    add end 129.2 130\nremove 1\nremove 2\nremove 3\nremove 4\nremove 5\nremove 6\nremove 7\n\
    remove 8\nremove 9\nremove 10\nremove 11\nremove 12\nremove 13\nremove 14\nremove 15\n\
    remove 16\nremove 17\nremove 18\nremove 19\nremove 20\nremove 21\nremove 22\nremove 23\n\
    remove 24\nremove 25\nremove 26\nremove 27\nremove 28\nremove 29\nremove 30\nremove 31\n\
    remove 32\nremove 33\nremove 34\nremove 35\nremove 36\nremove 37\nremove 38\nremove 39\n\
    remove 40\nremove 41\nremove 42\nremove 43\nremove 44\nremove 45\nremove 46\nremove 47\n\
    remove 48\nremove 49\nremove 50\nremove 51\nremove 52\nremove 53\nremove 54\nremove 55\n\
    remove 56\nremove 57\nremove 58\nremove 59\nremove 60\nremove 61\nremove 62\nremove 63\n\
    remove 64\n",
    "at 1.2\nat 2.2\nat 3.2\nat 4.2\nat 5.2\nat 6.2\nat 7.2\nat 8.2\nat 9.2\nat 10.2\nat 11.2\n\
    at 12.2\nat 13.2\nat 14.2\nat 15.2\nat 16.2\nat 17.2\nat 18.2\nat 19.2\nat 20.2\nat 21.2\n\
    at 22.2\nat 23.2\nat 24.2\nat 25.2\nat 26.2\nat 27.2\nat 28.2\nat 29.2\nat 30.2\nat 31.2\n\
    at 32.2\nat 33.2\nat 34.2\nat 35.2\nat 36.2\nat 37.2\nat 38.2\nat 39.2\nat 40.2\nat 41.2\n\
    at 42.2\nat 43.2\nat 44.2\nat 45.2\nat 46.2\nat 47.2\nat 48.2\nat 49.2\nat 50.2\nat 51.2\n\
    at 52.2\nat 53.2\nat 54.2\nat 55.2\nat 56.2\nat 57.2\nat 58.2\nat 59.2\nat 60.2\nat 61.2\n\
    at 62.2\nat 63.2\nat 64.2\nat 65.2\nat 66.2\nat 67.2\nat 68.2\nat 69.2\nat 70.2\nat 71.2\n\
    at 72.2\nat 73.2\nat 74.2\nat 75.2\nat 76.2\nat 77.2\nat 78.2\nat 79.2\nat 80.2\nat 81.2\n\
    at 82.2\nat 83.2\nat 84.2\nat 85.2\nat 86.2\nat 87.2\nat 88.2\nat 89.2\nat 90.2\nat 91.2\n\
    at 92.2\nat 93.2\nat 94.2\nat 95.2\nat 96.2\nat 97.2\nat 98.2\nat 99.2\nat 100.2\nat 101.2\n\
    at 102.2\nat 103.2\nat 104.2\nat 105.2\nat 106.2\nat 107.2\nat 108.2\nat 109.2\nat 110.2\n\
    at 111.2\nat 112.2\nat 113.2\nat 114.2\nat 115.2\nat 116.2\nat 117.2\nat 118.2\nat 119.2\n\
    at 120.2\nat 121.2\nat 122.2\nat 123.2\nat 124.2\nat 125.2\nat 126.2\nat 127.2\nat 128.2\n\
    at 129.2\nat 130.2\nvalue 1\nvalue 2\nvalue 3\nvalue 4\nvalue 5\nvalue 6\nvalue 7\nvalue 8\n\
    value 9\nvalue 10\nvalue 11\nvalue 12\nvalue 13\nvalue 14\nvalue 15\nvalue 16\nvalue 17\n\
    value 18\nvalue 19\nvalue 20\nvalue 21\nvalue 22\nvalue 23\nvalue 24\nvalue 25\nvalue 26\n\
    value 27\nvalue 28\nvalue 29\nvalue 30\nvalue 31\nvalue 32\nvalue 33\nvalue 34\nvalue 35\n\
    value 36\nvalue 37\nvalue 38\nvalue 39\nvalue 40\nvalue 41\nvalue 42\nvalue 43\nvalue 44\n\
    value 45\nvalue 46\nvalue 47\nvalue 48\nvalue 49\nvalue 50\nvalue 51\nvalue 52\nvalue 53\n\
    value 54\nvalue 55\nvalue 56\nvalue 57\nvalue 58\nvalue 59\nvalue 60\nvalue 61\nvalue 62\n\
    value 63\nvalue 64\n",
);

/// The walk along the 66 links left after a compression, at indexes from 1 on.
const WALK_OF_THE_REST: (&str, &str) = (
    "len\nchain 1.67\n",
    "count 66\n1.67:65 2.67:66 3.67:67 4.67:68 5.67:69 6.67:70 7.67:71 8.67:72 9.67:73 10.67:74 \
    11.67:75 12.67:76 13.67:77 14.67:78 15.67:79 16.67:80 17.67:81 18.67:82 19.67:83 20.67:84 \
    21.67:85 22.67:86 23.67:87 24.67:88 25.67:89 26.67:90 27.67:91 28.67:92 29.67:93 30.67:94 \
    31.67:95 32.67:96 33.67:97 34.67:98 35.67:99 36.67:100 37.67:101 38.67:102 39.67:103 \
    40.67:104 41.67:105 42.67:106 43.67:107 44.67:108 45.67:109 46.67:110 47.67:111 48.67:112 \
    49.67:113 50.67:114 51.67:115 52.67:116 53.67:117 54.67:118 55.67:119 56.67:120 57.67:121 \
    58.67:122 59.67:123 60.67:124 61.67:125 62.67:126 63.67:127 64.67:128 65.67:129 66.67:130\n",
);

/// Checks that a chain whose first of three blocks is emptied is compressed to two, in order. Each
/// link is placed once.
fn check_chain<S: SlotStack<Item = Slot>>(rt: &impl Abort, alloc: Global) {
    let mut arena = LinksOver::<S>::new(alloc);
    let (input, output) = FIRST_BLOCK_EMPTIED;
    check_on(rt, alloc, &mut arena, input, output);
    let (_, work) = arena.compress_canonical_counted(false);
    assert!(rt; work.placed == 66);
    let (input, output) = WALK_OF_THE_REST;
    check_on(rt, alloc, &mut arena, input, output);
}

/// Runs all tests over a stack. Each stack is named once, where this is called, since that is the
/// cost.
fn check_over<S: SlotStack<Item = Slot>>(rt: &impl Abort, alloc: Global) {
    check_runs::<S>(rt, alloc);
    check_chain::<S>(rt, alloc);
    io_faults::check_readers::<S>(rt, alloc);
    io_faults::check_writers::<S>(rt, alloc);
}

#[test]
fn over_one_piece_of_memory_and_in_blocks(rt: HostRuntime) {
    check_over::<HeapStack<Slot>>(&rt, rt.alloc());
    check_over::<ChunkStack<Slot>>(&rt, rt.alloc());
}
