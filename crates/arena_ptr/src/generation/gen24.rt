ghost use Rattle.std.specs.Prelude.{◌≡◌, ◌≤◌, ◌==◌, ◌&&◌, ◌↔◌, IsSome, IfSome};
ghost use Rattle.arena_ptr.specs.ThreeBytes.{AreThreeBytes};

use arena_core::{GenKey, PtrGen};
use std::fmt;

/// A generation of three bytes, from 1 to 16,777,215.
///
/// With a value of four bytes and 32-bit indexes, a slot takes 20 bytes, and 24 with a
/// [`Gen32`](crate::Gen32).
// Ordered by their numbers, from the high byte.
#[derive(Clone, Copy, PartialEq, Eq, PartialOrd, Ord, Hash)]
pub struct Gen24 {
    high: u8,
    middle: u8,
    low: u8,
    pub ghost in_range: { AreThreeBytes high middle low },
}

const GREATEST: u32 = 0xff_ffff;

impl Gen24 {
    ghost use Rattle.arena_ptr.specs.Generations.{number_of_gen24};

    /// Returns generation `n`, or `None` for 0 or above 16,777,215.
    pub fn new(n: u32) -> Option<Self>
        ensures variant { IsSome result ↔ ((1 ≤ n) × (n ≤ 0xff_ffff)) }
        ensures value { IfSome result (λ g. number_of_gen24 g ≡ n) }
    {
        if n == 0 || n > GREATEST {
            return None;
        }
        Some(Gen24 {
            high: (n / 0x100 / 0x100) as u8,
            middle: (n / 0x100 % 0x100) as u8,
            low: (n % 0x100) as u8,
        })
    }

    /// Returns the number.
    pub fn get(self) -> u32
        ensures value { result ≡ number_of_gen24 self }
        ensures some { 1 ≤ result }
    {
        0x1_0000 * u32::from(self.high) + 0x100 * u32::from(self.middle) + u32::from(self.low)
    }
}

impl GenKey for Gen24 {
    ghost use Rattle.arena_ptr.specs.Generations.{number_of_gen24, two24, after24, is_greatest24, begins_again24, same_bytes24, eq_is_same_gen24};

    ghost first = { two24 };

    ghost following = { after24 };

    ghost wraps = { is_greatest24 };

    ghost same = { same_bytes24 };

    ghost begins_again = { begins_again24 };

    ghost same_is_equal = { eq_is_same_gen24 };

    fn two() -> Self {
        Gen24 {
            high: 0,
            middle: 0,
            low: 2,
        }
    }

    fn generational_inc(self) -> (Self, bool) {
        match Gen24::new(self.get() + 1) {
            Some(next) => (next, false),
            None => (Self::two(), true),
        }
    }

    fn is_same(self, other: Self) -> bool {
        self == other
    }
}

impl fmt::Debug for Gen24 {
    fn fmt<W: fmt::Write>(&self, f: &mut fmt::Formatter<W>) -> fmt::Result {
        f.debug_struct("Gen24")
            .field("number", &self.get())
            .finish()
    }
}

impl PtrGen for Gen24 {
    ghost use Rattle.std.proofs.Common.{refl};
    ghost use Rattle.arena_core.specs.PointerText.{in_parentheses};
    ghost use Rattle.arena_ptr.specs.Generations.{number_of_gen24};

    ghost text = { λ g. in_parentheses (number_of_gen24 g) };

    ghost eq_is_same = { λ _ _. refl };

    fn fmt_gen<W: fmt::Write>(self, f: &mut fmt::Formatter<W>) -> fmt::Result {
        write!(f, "({:x})", self.get())
    }
}
