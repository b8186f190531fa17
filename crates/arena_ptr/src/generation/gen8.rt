ghost use Rattle.std.specs.Prelude.{◌≡◌, ◌≤◌, ◌==◌, ◌↔◌, IsSome, IfSome};
ghost use Rattle.arena_core.specs.Numbers.{IsWithin};

use arena_core::{GenKey, PtrGen};
use std::fmt;

/// An 8-bit generation, from 1 to 255.
#[derive(Clone, Copy, Debug, PartialEq, Eq, PartialOrd, Ord, Hash)]
pub struct Gen8 {
    number: u8,
    pub ghost in_range: { IsWithin 0xff number },
}

impl Gen8 {
    ghost use Rattle.arena_ptr.specs.Generations.{number_of_gen8};

    /// Returns generation `n`, or `None` for 0.
    pub fn new(n: u8) -> Option<Self>
        ensures variant { IsSome result ↔ (1 ≤ n) }
        ensures value { IfSome result (λ g. number_of_gen8 g ≡ n) }
    {
        match n {
            0 => None,
            number => Some(Gen8 { number }),
        }
    }

    /// Returns the number.
    pub fn get(self) -> u8
        ensures value { result ≡ number_of_gen8 self }
        ensures some { 1 ≤ result }
    {
        self.number
    }
}

impl GenKey for Gen8 {
    ghost use Rattle.arena_ptr.specs.Generations.{number_of_gen8, two8, after8, is_greatest8, begins_again8, eq_is_same_gen8};

    ghost first = { two8 };

    ghost following = { after8 };

    ghost wraps = { is_greatest8 };

    ghost same = { λ g h. g.number == h.number };

    ghost begins_again = { begins_again8 };

    ghost same_is_equal = { eq_is_same_gen8 };

    fn two() -> Self {
        Gen8 { number: 2 }
    }

    fn generational_inc(self) -> (Self, bool) {
        if self.number == u8::MAX {
            return (Self::two(), true);
        }
        let number = self.number + 1;
        (Gen8 { number }, false)
    }

    fn is_same(self, other: Self) -> bool {
        self == other
    }
}

impl PtrGen for Gen8 {
    ghost use Rattle.std.proofs.Common.{refl};
    ghost use Rattle.arena_core.specs.PointerText.{in_parentheses};
    ghost use Rattle.arena_ptr.specs.Generations.{number_of_gen8};

    ghost text = { λ g. in_parentheses (number_of_gen8 g) };

    ghost eq_is_same = { λ _ _. refl };

    fn fmt_gen<W: fmt::Write>(self, f: &mut fmt::Formatter<W>) -> fmt::Result {
        write!(f, "({:x})", self.number)
    }
}
