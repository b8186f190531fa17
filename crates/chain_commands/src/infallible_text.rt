//! `moves F` without allocating.
ghost use Rattle.std.specs.Prelude.{◌≡◌, ◌+◌, ◌<◌, ◌≤◌, ◌∷◌, [], List, length, map, decimal};
ghost use Rattle.std.specs.List.{concat};
ghost use Rattle.arena_ptr.specs.ToolPtr.{key_of};
ghost use Rattle.chain_commands.specs.Responses.{greatest_index, pointer_text, move_text, moves_text, overflow_text, HasCapacityForText, AppendsBytes};

use arena_ptr::{InvalidationOption, PtrKey, ToolPtr};

/// Returns the capacity with a line feed: 26 bytes, and 44 a link.
pub fn moves_text_capacity(links: usize) -> usize
    requires { links ≤ greatest_index }
    ensures { (moves : List (ToolPtr × ToolPtr)) (known : InvalidationOption Unit) →
        length moves ≡ links → length (moves_text moves known) < result }
{
    links * 44 + 26
}

fn write_words(text: &mut String, words: &str)
    requires { HasCapacityForText text.old words.now }
    ensures { AppendsBytes text.old text.new words.now }
{
    text.push_str(words).unwrap();
}

fn write_digit(text: &mut String, digit: usize)
    requires below { digit < 10 }
    requires capacity { HasCapacityForText text.old ((48 + digit) ∷ []) }
    ensures { AppendsBytes text.old text.new ((48 + digit) ∷ []) }
{
    let letter = (b'0' + digit as u8) as char;
    text.push(letter).unwrap();
}

fn write_decimal(text: &mut String, n: usize)
    requires { HasCapacityForText text.old (decimal n) }
    ensures { AppendsBytes text.old text.new (decimal n) }
{
    if n < 10 {
        write_digit(text, n);
    } else {
        write_decimal(text, n / 10);
        write_digit(text, n % 10);
    }
}

fn write_pointer(text: &mut String, p: ToolPtr)
    requires { HasCapacityForText text.old (pointer_text (key_of p)) }
    ensures { AppendsBytes text.old text.new (pointer_text (key_of p)) }
{
    write_decimal(text, p.inx().get() as usize);
    write_words(text, ".");
    write_decimal(text, p.generation().get() as usize);
}

fn write_move(text: &mut String, from: ToolPtr, to: ToolPtr)
    requires { HasCapacityForText text.old (move_text (from, to)) }
    ensures { AppendsBytes text.old text.new (move_text (from, to)) }
{
    write_words(text, " ");
    write_pointer(text, from);
    write_words(text, ">");
    write_pointer(text, to);
}

fn write_each(text: &mut String, moves: &[(ToolPtr, ToolPtr)])
    requires { HasCapacityForText text.old (concat (map move_text moves.now)) }
    ensures { AppendsBytes text.old text.new (concat (map move_text moves.now)) }
{
    let mut rest = moves;
    while let Some((link, others)) = rest.split_first() {
        write_move(text, link.0, link.1);
        rest = others;
    }
}

fn overflow(known: InvalidationOption<()>) -> &'static str
    ensures { result.now ≡ overflow_text known }
{
    match known {
        InvalidationOption::Success(()) => "",
        InvalidationOption::GenerationOverflow(()) => " overflow",
    }
}

pub fn write_moves(text: &mut String, moves: &[(ToolPtr, ToolPtr)], known: InvalidationOption<()>)
    requires { HasCapacityForText text.old (moves_text moves.now known) }
    ensures { AppendsBytes text.old text.new (moves_text moves.now known) }
{
    write_words(text, "moved ");
    write_decimal(text, moves.len());
    write_each(text, moves);
    write_words(text, overflow(known));
}
