//! An index type of two indexes.

use arena_ptr::{InxKey, PackedOption, PtrInx};
use std::fmt;

/// An index of one bit: 1 or 2.
#[derive(Clone, Copy, Debug, PartialEq, Eq, PartialOrd, Ord, Hash)]
pub struct TinyInx {
    is_two: bool,
}

impl InxKey for TinyInx {
    ghost use Rattle.std.specs.Prelude.{◌≡◌, if◌then◌else◌};
    ghost use Rattle.std.specs.Option.{option_map};
    ghost use Rattle.std.proofs.Common.{lit<, rules};
    ghost use Rattle.std.proofs.Math.Bool.{beq};

    type Word = Option<Self>;

    ghost number = { λ i. if i.is_two then 2 else 1 };

    ghost same = { λ i j. beq i.is_two j.is_two };

    ghost packed_number = { λ o. option_map (λ i. if i.is_two then 2 else 1) o.word };

    ghost greatest = { 2 };

    ghost greatest_fits = { lit< tt };

    ghost at_least_one = { Prim.search rules };

    ghost at_most_greatest = { Prim.search rules };

    ghost same_number = { Prim.search rules };

    ghost same_is_equal = { Prim.search rules };

    ghost same_packed = { Prim.search rules };

    fn greatest() -> usize {
        2
    }

    fn try_from_usize(n: usize) -> Option<Self> {
        match n {
            1 => Some(TinyInx { is_two: false }),
            2 => Some(TinyInx { is_two: true }),
            _ => None,
        }
    }

    fn try_into_usize(self) -> Option<usize> {
        Some(if self.is_two { 2 } else { 1 })
    }

    fn is_same(self, other: Self) -> bool {
        self == other
    }

    fn pack(i: Option<Self>) -> PackedOption<Self, Option<Self>>
        ensures { result.word ≡ i }
    {
        PackedOption::new(i)
    }

    fn unpack(packed: PackedOption<Self, Option<Self>>) -> Option<Self>
        ensures { result ≡ packed.word }
    {
        packed.word()
    }
}

impl PtrInx for TinyInx {
    ghost use Rattle.std.proofs.Common.{refl};

    ghost eq_is_same = { λ _ _. refl };

    fn fmt_hex<W: fmt::Write>(self, f: &mut fmt::Formatter<W>) -> fmt::Result {
        let number: u8 = if self.is_two { 2 } else { 1 };
        write!(f, "{:x}", number)
    }
}
