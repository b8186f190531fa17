ghost use Rattle.std.specs.Prelude.{◌≡◌, ◌==◌, ◌&&◌, codes};

use crate::generation::Gen32;
use crate::index::Inx32;
use arena_core::{Ptr, PtrGen, PtrInx, PtrKey};
use std::fmt;

/// A pointer of a 32-bit index and a 32-bit generation.
#[derive(Clone, Copy, PartialEq, Eq, PartialOrd, Ord, Hash)]
pub struct ToolPtr {
    inx: Inx32,
    generation: Gen32,
}

impl PtrKey for ToolPtr {
    ghost use Rattle.arena_ptr.specs.CountedGenerations.{IsNeverCounted};
    ghost use Rattle.arena_ptr.specs.Generations.{number_of_gen32, two32, after32};
    ghost use Rattle.arena_ptr.specs.ToolPtr.{key_of, same_tool_ptr, eq_is_same_tool_ptr};

    type Inx = Inx32;

    type Gen = Gen32;

    ghost key = { key_of };

    ghost same = { λ p q. (p.inx.number == q.inx.number)
        && (p.generation.number == q.generation.number) };

    ghost index_within = { λ p. p.inx.in_range };

    ghost same_key = { same_tool_ptr };

    ghost same_is_equal = { eq_is_same_tool_ptr };

    /// Returns a pointer that counting never reaches.
    fn invalid() -> Self
        ensures index { (key_of result).0 ≡ 1 }
        ensures generation { number_of_gen32 (key_of result).1 ≡ 1 }
        ensures never { IsNeverCounted two32 after32 (key_of result).1 }
    {
        ToolPtr {
            inx: Inx32::new(1).unwrap(),
            generation: Gen32::new(1).unwrap(),
        }
    }

    fn inx(self) -> Inx32 {
        self.inx
    }

    fn generation(self) -> Gen32 {
        self.generation
    }

    fn is_same(self, other: Self) -> bool {
        self == other
    }

    fn _from_raw(inx: Inx32, generation: Gen32) -> Self {
        ToolPtr { inx, generation }
    }
}

impl Ptr for ToolPtr {
    ghost use Rattle.std.proofs.Common.{refl};

    ghost type_name = { codes "P0" };

    ghost eq_is_same = { λ _ _. refl };

    fn name() -> &'static str {
        "P0"
    }
}

impl fmt::Debug for ToolPtr {
    ghost use Rattle.std.specs.Prelude.{Some};
    ghost use Rattle.arena_ptr.specs.ToolPtr.{text_of};

    ghost debug_output = { λ p. Some (text_of p) };

    fn fmt<W: fmt::Write>(&self, f: &mut fmt::Formatter<W>) -> fmt::Result {
        let ToolPtr { inx, generation } = *self;
        f.write_str(Self::name())?;
        f.write_str("[")?;
        inx.fmt_hex(f)?;
        f.write_str("]")?;
        generation.fmt_gen(f)
    }
}
