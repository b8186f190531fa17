ghost use Rattle.std.specs.Prelude.{◌≡◌, ◌≤◌, ◌==◌, ◌↔◌, IsSome, IfSome};
ghost use Rattle.arena_core.specs.Numbers.{IsWithin};

use arena_core::{GenKey, PtrGen};
use std::fmt;

/// A 16-bit generation, from 1 to 65,535.
#[derive(Clone, Copy, Debug, PartialEq, Eq, PartialOrd, Ord, Hash)]
pub struct Gen16 {
    number: u16,
    pub ghost in_range: { IsWithin 0xffff number },
}

impl Gen16 {
    ghost use Rattle.arena_ptr.specs.Generations.{number_of_gen16};

    /// Returns generation `n`, or `None` for 0.
    pub fn new(n: u16) -> Option<Self>
        ensures variant { IsSome result ↔ (1 ≤ n) }
        ensures value { IfSome result (λ g. number_of_gen16 g ≡ n) }
    {
        match n {
            0 => None,
            number => Some(Gen16 { number }),
        }
    }

    /// Returns the number.
    pub fn get(self) -> u16
        ensures value { result ≡ number_of_gen16 self }
        ensures some { 1 ≤ result }
    {
        self.number
    }
}

impl GenKey for Gen16 {
    ghost use Rattle.arena_ptr.specs.Generations.{number_of_gen16, two16, after16, is_greatest16, begins_again16, eq_is_same_gen16};

    ghost first = { two16 };

    ghost following = { after16 };

    ghost wraps = { is_greatest16 };

    ghost same = { λ g h. g.number == h.number };

    ghost begins_again = { begins_again16 };

    ghost same_is_equal = { eq_is_same_gen16 };

    fn two() -> Self {
        Gen16 { number: 2 }
    }

    fn generational_inc(self) -> (Self, bool) {
        if self.number == u16::MAX {
            return (Self::two(), true);
        }
        let number = self.number + 1;
        (Gen16 { number }, false)
    }

    fn is_same(self, other: Self) -> bool {
        self == other
    }
}

impl PtrGen for Gen16 {
    ghost use Rattle.std.proofs.Common.{refl};
    ghost use Rattle.arena_core.specs.PointerText.{in_parentheses};
    ghost use Rattle.arena_ptr.specs.Generations.{number_of_gen16};

    ghost text = { λ g. in_parentheses (number_of_gen16 g) };

    ghost eq_is_same = { λ _ _. refl };

    fn fmt_gen<W: fmt::Write>(self, f: &mut fmt::Formatter<W>) -> fmt::Result {
        write!(f, "({:x})", self.number)
    }
}
