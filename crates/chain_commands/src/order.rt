//! Orders of links.
ghost use Rattle.std.specs.Prelude.{◌≡◌, IfOk, option_map};
ghost use Rattle.chain_commands.specs.Words.{words_of};
ghost use Rattle.chain_commands.specs.Commands.{IsArrangement, order_of, pointers_of};

use crate::lexer::{next_word, pointer};
use arena_ptr::ToolPtr;
use chain_arena::Call;
use std::alloc::{AllocError, Global};
use std::marker::Model;

/// Pointers to links, in order.
#[derive(Drop)]
pub struct Order {
    links: Vec<ToolPtr>,
}

impl Model for Order {
    ghost use Rattle.std.specs.Prelude.{List};
    ghost use Rattle.arena_ptr.specs.declared.tool_ptr.ToolPtr.{ToolPtr};

    ghost Value = { List ToolPtr };

    ghost view = { λ order. order.links.items };
}

impl Order {
    /// Parses one or more pointers.
    ///
    /// # Errors
    ///
    /// - `AllocError`: an allocation failed.
    pub fn parse(alloc: Global, arguments: &[u8]) -> Result<Option<Order>, AllocError>
        ensures { IfOk result (λ order. order ≡ order_of (words_of arguments.now)) }
    {
        if next_word(arguments).is_none() {
            return Ok(None);
        }
        match pointers(alloc, arguments)? {
            Some(links) => Ok(Some(Order { links })),
            None => Ok(None),
        }
    }

    /// Returns the call that arranges links.
    pub fn into_call(self) -> Call<ToolPtr, u32>
        ensures { IsArrangement self result }
    {
        Call::ArrangeChain(self.links)
    }
}

fn pointers(alloc: Global, words: &[u8]) -> Result<Option<Vec<ToolPtr>>, AllocError>
    ensures { IfOk result (λ links. option_map (λ v. v.items) links
        ≡ pointers_of (words_of words.now)) }
{
    let mut links = Vec::new(alloc);
    let mut left = words;
    while let Some((word, rest)) = next_word(left) {
        let Some(p) = pointer(word) else {
            return Ok(None);
        };
        links.push(p)?;
        left = rest;
    }
    Ok(Some(links))
}
