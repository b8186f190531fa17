ghost use Rattle.std.specs.Prelude.{◌≡◌, ◌≤◌, ◌==◌, ◌↔◌, IsSome, IfSome};
ghost use Rattle.arena_core.specs.Numbers.{IsWithin};

use arena_core::{GenKey, PtrGen};
use std::fmt;

/// A 32-bit generation, from 1 to 4,294,967,295.
#[derive(Clone, Copy, Debug, PartialEq, Eq, PartialOrd, Ord, Hash)]
pub struct Gen32 {
    number: u32,
    pub ghost in_range: { IsWithin 0xffff_ffff number },
}

impl Gen32 {
    ghost use Rattle.arena_ptr.specs.Generations.{number_of_gen32};

    /// Returns generation `n`, or `None` for 0.
    pub fn new(n: u32) -> Option<Self>
        ensures variant { IsSome result ↔ (1 ≤ n) }
        ensures value { IfSome result (λ g. number_of_gen32 g ≡ n) }
    {
        match n {
            0 => None,
            number => Some(Gen32 { number }),
        }
    }

    /// Returns the number.
    pub fn get(self) -> u32
        ensures value { result ≡ number_of_gen32 self }
        ensures some { 1 ≤ result }
    {
        self.number
    }
}

impl GenKey for Gen32 {
    ghost use Rattle.arena_ptr.specs.Generations.{number_of_gen32, two32, after32, is_greatest32, begins_again32, eq_is_same_gen32};

    ghost first = { two32 };

    ghost following = { after32 };

    ghost wraps = { is_greatest32 };

    ghost same = { λ g h. g.number == h.number };

    ghost begins_again = { begins_again32 };

    ghost same_is_equal = { eq_is_same_gen32 };

    fn two() -> Self {
        Gen32 { number: 2 }
    }

    fn generational_inc(self) -> (Self, bool) {
        if self.number == u32::MAX {
            return (Self::two(), true);
        }
        let number = self.number + 1;
        (Gen32 { number }, false)
    }

    fn is_same(self, other: Self) -> bool {
        self == other
    }
}

impl PtrGen for Gen32 {
    ghost use Rattle.std.proofs.Common.{refl};
    ghost use Rattle.arena_core.specs.PointerText.{in_parentheses};
    ghost use Rattle.arena_ptr.specs.Generations.{number_of_gen32};

    ghost text = { λ g. in_parentheses (number_of_gen32 g) };

    ghost eq_is_same = { λ _ _. refl };

    fn fmt_gen<W: fmt::Write>(self, f: &mut fmt::Formatter<W>) -> fmt::Result {
        write!(f, "({:x})", self.number)
    }
}
