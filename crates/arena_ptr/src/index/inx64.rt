ghost use Rattle.std.specs.Prelude.{◌≡◌, ◌≤◌, ◌==◌, ◌↔◌, IsSome, IfSome};
ghost use Rattle.arena_core.specs.Numbers.{IsWithin};

use arena_core::{InxKey, PackedOption, PtrInx};
use std::fmt;

/// A 64-bit index, from 1 to 18,446,744,073,709,551,615.
#[derive(Clone, Copy, Debug, PartialEq, Eq, PartialOrd, Ord, Hash)]
pub struct Inx64 {
    number: u64,
    pub ghost in_range: { IsWithin 0xffff_ffff_ffff_ffff number },
}

impl Inx64 {
    ghost use Rattle.arena_ptr.specs.Indexes.{number_of_inx64};

    /// Returns index `n`, or `None` for 0.
    pub fn new(n: u64) -> Option<Self>
        ensures variant { IsSome result ↔ (1 ≤ n) }
        ensures value { IfSome result (λ i. number_of_inx64 i ≡ n) }
    {
        match n {
            0 => None,
            number => Some(Inx64 { number }),
        }
    }

    /// Returns the number.
    pub fn get(self) -> u64
        ensures value { result ≡ number_of_inx64 self }
        ensures some { 1 ≤ result }
    {
        self.number
    }
}

impl InxKey for Inx64 {
    ghost use Rattle.std.specs.Option.{option_map};
    ghost use Rattle.std.proofs.Common.{lit<};
    ghost use Rattle.arena_core.specs.PackedOptions.{zero_is_none, same_zero_is_none};
    ghost use Rattle.arena_ptr.specs.Indexes.{number_of_inx64, same_inx64, eq_is_same_inx64};

    type Word = u64;

    ghost number = { number_of_inx64 };

    ghost same = { λ i j. i.number == j.number };

    ghost packed_number = { zero_is_none };

    ghost greatest = { 0xffff_ffff_ffff_ffff };

    ghost greatest_fits = { lit< tt };

    ghost at_least_one = { λ i. i.in_range.0 };

    ghost at_most_greatest = { λ i. i.in_range.1 };

    ghost same_number = { same_inx64 };

    ghost same_is_equal = { eq_is_same_inx64 };

    ghost same_packed = { same_zero_is_none };

    fn greatest() -> usize {
        usize::MAX
    }

    fn try_from_usize(n: usize) -> Option<Self> {
        Inx64::new(n as u64)
    }

    fn try_into_usize(self) -> Option<usize> {
        Some(self.number as usize)
    }

    fn is_same(self, other: Self) -> bool {
        self == other
    }

    fn pack(i: Option<Self>) -> PackedOption<Self, u64>
        ensures { zero_is_none result ≡ option_map number_of_inx64 i }
    {
        match i {
            Some(i) => PackedOption::new(i.number),
            None => PackedOption::new(0),
        }
    }

    fn unpack(packed: PackedOption<Self, u64>) -> Option<Self>
        ensures { option_map number_of_inx64 result ≡ zero_is_none packed }
    {
        Inx64::new(packed.word())
    }
}

impl PtrInx for Inx64 {
    ghost use Rattle.std.proofs.Common.{refl};

    ghost eq_is_same = { λ _ _. refl };

    fn fmt_hex<W: fmt::Write>(self, f: &mut fmt::Formatter<W>) -> fmt::Result {
        write!(f, "{:x}", self.number)
    }
}
