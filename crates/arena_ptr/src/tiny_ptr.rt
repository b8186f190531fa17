ghost use Rattle.std.specs.Prelude.{◌≡◌, ◌==◌, ◌&&◌, codes};

use crate::generation::Gen16;
use crate::index::Inx16;
use arena_core::{Ptr, PtrGen, PtrInx, PtrKey};
use std::fmt;

/// A pointer of a 16-bit index and a 16-bit generation.
#[derive(Clone, Copy, PartialEq, Eq, PartialOrd, Ord, Hash)]
pub struct TinyPtr {
    inx: Inx16,
    generation: Gen16,
}

impl PtrKey for TinyPtr {
    ghost use Rattle.arena_ptr.specs.CountedGenerations.{IsNeverCounted};
    ghost use Rattle.arena_ptr.specs.Generations.{number_of_gen16, two16, after16};
    ghost use Rattle.arena_ptr.specs.TinyPtr.{key_of, same_tiny_ptr, eq_is_same_tiny_ptr};

    type Inx = Inx16;

    type Gen = Gen16;

    ghost key = { key_of };

    ghost same = { λ p q. (p.inx.number == q.inx.number)
        && (p.generation.number == q.generation.number) };

    ghost index_within = { λ p. p.inx.in_range };

    ghost same_key = { same_tiny_ptr };

    ghost same_is_equal = { eq_is_same_tiny_ptr };

    /// Returns a pointer that counting never reaches.
    fn invalid() -> Self
        ensures index { (key_of result).0 ≡ 1 }
        ensures generation { number_of_gen16 (key_of result).1 ≡ 1 }
        ensures never { IsNeverCounted two16 after16 (key_of result).1 }
    {
        TinyPtr {
            inx: Inx16::new(1).unwrap(),
            generation: Gen16::new(1).unwrap(),
        }
    }

    fn inx(self) -> Inx16 {
        self.inx
    }

    fn generation(self) -> Gen16 {
        self.generation
    }

    fn is_same(self, other: Self) -> bool {
        self == other
    }

    fn _from_raw(inx: Inx16, generation: Gen16) -> Self {
        TinyPtr { inx, generation }
    }
}

impl Ptr for TinyPtr {
    ghost use Rattle.std.proofs.Common.{refl};

    ghost type_name = { codes "TinyPtr" };

    ghost eq_is_same = { λ _ _. refl };

    fn name() -> &'static str {
        "TinyPtr"
    }
}

impl fmt::Debug for TinyPtr {
    ghost use Rattle.std.specs.Prelude.{Some};
    ghost use Rattle.arena_ptr.specs.TinyPtr.{text_of};

    ghost debug_output = { λ p. Some (text_of p) };

    fn fmt<W: fmt::Write>(&self, f: &mut fmt::Formatter<W>) -> fmt::Result {
        let TinyPtr { inx, generation } = *self;
        f.write_str(Self::name())?;
        f.write_str("[")?;
        inx.fmt_hex(f)?;
        f.write_str("]")?;
        generation.fmt_gen(f)
    }
}
