ghost use Rattle.std.specs.Prelude.{◌≡◌, ◌≤◌, ◌==◌, ◌↔◌, IsSome, IfSome};
ghost use Rattle.arena_core.specs.Numbers.{IsWithin};

use arena_core::{InxKey, PackedOption, PtrInx};
use std::fmt;

/// A 16-bit index, from 1 to 65,535.
#[derive(Clone, Copy, Debug, PartialEq, Eq, PartialOrd, Ord, Hash)]
pub struct Inx16 {
    number: u16,
    pub ghost in_range: { IsWithin 0xffff number },
}

impl Inx16 {
    ghost use Rattle.arena_ptr.specs.Indexes.{number_of_inx16};

    /// Returns index `n`, or `None` for 0.
    pub fn new(n: u16) -> Option<Self>
        ensures variant { IsSome result ↔ (1 ≤ n) }
        ensures value { IfSome result (λ i. number_of_inx16 i ≡ n) }
    {
        match n {
            0 => None,
            number => Some(Inx16 { number }),
        }
    }

    /// Returns the number.
    pub fn get(self) -> u16
        ensures value { result ≡ number_of_inx16 self }
        ensures some { 1 ≤ result }
    {
        self.number
    }
}

impl InxKey for Inx16 {
    ghost use Rattle.std.specs.Option.{option_map};
    ghost use Rattle.std.proofs.Common.{lit<};
    ghost use Rattle.arena_core.specs.PackedOptions.{zero_is_none, same_zero_is_none};
    ghost use Rattle.arena_ptr.specs.Indexes.{number_of_inx16, same_inx16, eq_is_same_inx16};

    type Word = u16;

    ghost number = { number_of_inx16 };

    ghost same = { λ i j. i.number == j.number };

    ghost packed_number = { zero_is_none };

    ghost greatest = { 0xffff };

    ghost greatest_fits = { lit< tt };

    ghost at_least_one = { λ i. i.in_range.0 };

    ghost at_most_greatest = { λ i. i.in_range.1 };

    ghost same_number = { same_inx16 };

    ghost same_is_equal = { eq_is_same_inx16 };

    ghost same_packed = { same_zero_is_none };

    fn greatest() -> usize {
        u16::MAX as usize
    }

    fn try_from_usize(n: usize) -> Option<Self> {
        if n > u16::MAX as usize {
            return None;
        }
        Inx16::new(n as u16)
    }

    fn try_into_usize(self) -> Option<usize> {
        Some(self.number as usize)
    }

    fn is_same(self, other: Self) -> bool {
        self == other
    }

    fn pack(i: Option<Self>) -> PackedOption<Self, u16>
        ensures { zero_is_none result ≡ option_map number_of_inx16 i }
    {
        match i {
            Some(i) => PackedOption::new(i.number),
            None => PackedOption::new(0),
        }
    }

    fn unpack(packed: PackedOption<Self, u16>) -> Option<Self>
        ensures { option_map number_of_inx16 result ≡ zero_is_none packed }
    {
        Inx16::new(packed.word())
    }
}

impl PtrInx for Inx16 {
    ghost use Rattle.std.proofs.Common.{refl};

    ghost eq_is_same = { λ _ _. refl };

    fn fmt_hex<W: fmt::Write>(self, f: &mut fmt::Formatter<W>) -> fmt::Result {
        write!(f, "{:x}", self.number)
    }
}
