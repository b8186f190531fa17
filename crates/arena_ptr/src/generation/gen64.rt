ghost use Rattle.std.specs.Prelude.{◌≡◌, ◌≤◌, ◌==◌, ◌↔◌, IsSome, IfSome};
ghost use Rattle.arena_core.specs.Numbers.{IsWithin};

use arena_core::{GenKey, PtrGen};
use std::fmt;

/// A 64-bit generation, from 1 to 18,446,744,073,709,551,615.
#[derive(Clone, Copy, Debug, PartialEq, Eq, PartialOrd, Ord, Hash)]
pub struct Gen64 {
    number: u64,
    pub ghost in_range: { IsWithin 0xffff_ffff_ffff_ffff number },
}

impl Gen64 {
    ghost use Rattle.arena_ptr.specs.Generations.{number_of_gen64};

    /// Returns generation `n`, or `None` for 0.
    pub fn new(n: u64) -> Option<Self>
        ensures variant { IsSome result ↔ (1 ≤ n) }
        ensures value { IfSome result (λ g. number_of_gen64 g ≡ n) }
    {
        match n {
            0 => None,
            number => Some(Gen64 { number }),
        }
    }

    /// Returns the number.
    pub fn get(self) -> u64
        ensures value { result ≡ number_of_gen64 self }
        ensures some { 1 ≤ result }
    {
        self.number
    }
}

impl GenKey for Gen64 {
    ghost use Rattle.arena_ptr.specs.Generations.{number_of_gen64, two64, after64, is_greatest64, begins_again64, eq_is_same_gen64};

    ghost first = { two64 };

    ghost following = { after64 };

    ghost wraps = { is_greatest64 };

    ghost same = { λ g h. g.number == h.number };

    ghost begins_again = { begins_again64 };

    ghost same_is_equal = { eq_is_same_gen64 };

    fn two() -> Self {
        Gen64 { number: 2 }
    }

    fn generational_inc(self) -> (Self, bool) {
        if self.number == u64::MAX {
            return (Self::two(), true);
        }
        let number = self.number + 1;
        (Gen64 { number }, false)
    }

    fn is_same(self, other: Self) -> bool {
        self == other
    }
}

impl PtrGen for Gen64 {
    ghost use Rattle.std.proofs.Common.{refl};
    ghost use Rattle.arena_core.specs.PointerText.{in_parentheses};
    ghost use Rattle.arena_ptr.specs.Generations.{number_of_gen64};

    ghost text = { λ g. in_parentheses (number_of_gen64 g) };

    ghost eq_is_same = { λ _ _. refl };

    fn fmt_gen<W: fmt::Write>(self, f: &mut fmt::Formatter<W>) -> fmt::Result {
        write!(f, "({:x})", self.number)
    }
}
