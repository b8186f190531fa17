ghost use Rattle.std.specs.Prelude.{◌≡◌, ◌==◌, ◌&&◌, codes};

use crate::generation::Gen24;
use crate::index::Inx32;
use arena_core::{Ptr, PtrGen, PtrInx, PtrKey};
use std::fmt;

/// A pointer of a 32-bit index and a 24-bit generation, seven bytes.
#[derive(Clone, Copy, PartialEq, Eq, PartialOrd, Ord, Hash)]
pub struct SlimPtr {
    inx: Inx32,
    generation: Gen24,
}

impl PtrKey for SlimPtr {
    ghost use Rattle.arena_ptr.specs.CountedGenerations.{IsNeverCounted};
    ghost use Rattle.arena_ptr.specs.Generations.{number_of_gen24, same_bytes24, two24, after24};
    ghost use Rattle.arena_ptr.specs.SlimPtr.{key_of, same_slim_ptr, eq_is_same_slim_ptr};

    type Inx = Inx32;

    type Gen = Gen24;

    ghost key = { key_of };

    ghost same = { λ p q. (p.inx.number == q.inx.number)
        && same_bytes24 p.generation q.generation };

    ghost index_within = { λ p. p.inx.in_range };

    ghost same_key = { same_slim_ptr };

    ghost same_is_equal = { eq_is_same_slim_ptr };

    /// Returns a pointer that counting never reaches.
    fn invalid() -> Self
        ensures index { (key_of result).0 ≡ 1 }
        ensures generation { number_of_gen24 (key_of result).1 ≡ 1 }
        ensures never { IsNeverCounted two24 after24 (key_of result).1 }
    {
        SlimPtr {
            inx: Inx32::new(1).unwrap(),
            generation: Gen24::new(1).unwrap(),
        }
    }

    fn inx(self) -> Inx32 {
        self.inx
    }

    fn generation(self) -> Gen24 {
        self.generation
    }

    fn is_same(self, other: Self) -> bool {
        self == other
    }

    fn _from_raw(inx: Inx32, generation: Gen24) -> Self {
        SlimPtr { inx, generation }
    }
}

impl Ptr for SlimPtr {
    ghost use Rattle.std.proofs.Common.{refl};

    ghost type_name = { codes "SlimPtr" };

    ghost eq_is_same = { λ _ _. refl };

    fn name() -> &'static str {
        "SlimPtr"
    }
}

impl fmt::Debug for SlimPtr {
    ghost use Rattle.std.specs.Prelude.{Some};
    ghost use Rattle.arena_ptr.specs.SlimPtr.{text_of};

    ghost debug_output = { λ p. Some (text_of p) };

    fn fmt<W: fmt::Write>(&self, f: &mut fmt::Formatter<W>) -> fmt::Result {
        let SlimPtr { inx, generation } = *self;
        f.write_str(Self::name())?;
        f.write_str("[")?;
        inx.fmt_hex(f)?;
        f.write_str("]")?;
        generation.fmt_gen(f)
    }
}
