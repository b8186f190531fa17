ghost use Rattle.std.specs.Prelude.{◌≡◌, ℕ, ◌^◌, ◌<◌, ◌≤◌, ◌↔◌, IsSome, IfSome, Option, Some, Bool, true};
ghost use Rattle.std.specs.Option.{option_map};
ghost use Rattle.arena_core.specs.declared.packed_option.PackedOption.{PackedOption};
ghost use Rattle.arena_core.specs.Numbers.{IsWithin};

use crate::packed_option::PackedOption;

/// An index of an arena, from 1.
///
/// If a number is spare, `Word` has the index's width, as in `Inx32`, where 0 is `None`:
///
/// ```text
/// ghost use Rattle.std.specs.Option.{option_map};
/// ghost use Rattle.arena_core.specs.PackedOptions.{zero_is_none, same_zero_is_none};
///
/// type Word = u32;
/// ghost packed_number = { zero_is_none };
/// ghost same_packed = { same_zero_is_none };
///
/// fn pack(i: Option<Self>) -> PackedOption<Self, u32>
///     ensures { zero_is_none result ≡ option_map number_of_inx32 i }
/// {
///     match i {
///         Some(i) => PackedOption::new(i.number),
///         None => PackedOption::new(0),
///     }
/// }
///
/// fn unpack(packed: PackedOption<Self, u32>) -> Option<Self>
///     ensures { option_map number_of_inx32 result ≡ zero_is_none packed }
/// {
///     Inx32::new(packed.word())
/// }
/// ```
///
/// Otherwise it is `Option<Self>`, as for a `TinyInx` of one `bool`, numbered by `number`:
///
/// ```text
/// ghost use Rattle.std.specs.Prelude.{◌≡◌};
/// ghost use Rattle.std.specs.Option.{option_map};
/// ghost use Rattle.std.proofs.Common.{rules};
///
/// type Word = Option<Self>;
/// ghost packed_number = { λ o. option_map number o.word };
/// ghost same_packed = { Prim.search rules };
///
/// fn pack(i: Option<Self>) -> PackedOption<Self, Option<Self>>
///     ensures { result.word ≡ i }
/// {
///     PackedOption::new(i)
/// }
///
/// fn unpack(packed: PackedOption<Self, Option<Self>>) -> Option<Self>
///     ensures { result ≡ packed.word }
/// {
///     packed.word()
/// }
/// ```
///
/// Port of `PtrInx`.
pub trait InxKey: Copy {
    /// Stores an optional index.
    type Word: Copy;

    ghost number: { Self → ℕ };

    ghost same: { Self → Self → Bool };

    ghost packed_number: { PackedOption Self Self.Word → Option ℕ };

    ghost greatest: { ℕ };

    /// Returns the greatest index, below 2^64.
    fn greatest() -> usize
        ensures value { result ≡ greatest }
        ensures some { 1 ≤ result };

    /// Returns index `n`, or `None` for 0 or above the greatest.
    fn try_from_usize(n: usize) -> Option<Self>
        ensures variant { IsSome result ↔ ((1 ≤ n) × (n ≤ greatest)) }
        ensures value { IfSome result (λ i. number i ≡ n) };

    /// Returns the number, never `None`.
    fn try_into_usize(self) -> Option<usize>
        ensures { result ≡ Some (number self) };

    /// Returns whether both are equal.
    fn is_same(self, other: Self) -> bool
        ensures { result ≡ same self other };

    /// Packs an optional index.
    fn pack(i: Option<Self>) -> PackedOption<Self, Self::Word>
        ensures { packed_number result ≡ option_map number i };

    /// Unpacks an optional index.
    fn unpack(packed: PackedOption<Self, Self::Word>) -> Option<Self>
        ensures { option_map number result ≡ packed_number packed };

    ghost greatest_fits: { greatest < 2 ^ 64 };

    ghost at_least_one: { (i : Self) → 1 ≤ number i };

    ghost at_most_greatest: { (i : Self) → number i ≤ greatest };

    ghost same_number: { (i j : Self) → number i ≡ number j → i ≡ j };

    ghost same_is_equal: { (i j : Self) → (same i j ≡ true) ↔ (i ≡ j) };

    ghost same_packed: { (o p : PackedOption Self Self.Word) → packed_number o ≡ packed_number p
        → o ≡ p };
}

/// Distinguishes the entries that have used one index.
///
/// Port of `PtrGen`.
pub trait GenKey: Copy {
    ghost first: { Self };

    ghost following: { Self → Self };

    ghost wraps: { Self → Bool };

    ghost same: { Self → Self → Bool };

    /// Returns the first generation.
    fn two() -> Self
        ensures { result ≡ first };

    /// Returns the next generation, and whether it overflowed to two.
    fn generational_inc(self) -> (Self, bool)
        ensures next { result.0 ≡ following self }
        ensures overflow { result.1 ≡ wraps self };

    /// Returns whether both are equal.
    fn is_same(self, other: Self) -> bool
        ensures { result ≡ same self other };

    ghost begins_again: { (g : Self) → wraps g ≡ true → following g ≡ first };

    ghost same_is_equal: { (g h : Self) → (same g h ≡ true) ↔ (g ≡ h) };
}

/// An index and a generation, which determine a pointer.
///
/// Port of `Ptr`.
pub trait PtrKey: Copy {
    type Inx: InxKey;

    /// The generation type, or `()`.
    type Gen: GenKey;

    ghost key: { Self → ℕ × Self.Gen };

    ghost same: { Self → Self → Bool };

    /// Returns a placeholder with index 1.
    ///
    /// Its generation should be one that counting never reaches; a generic type cannot supply it.
    fn invalid() -> Self
        ensures { (key result).0 ≡ 1 };

    /// Returns the index.
    fn inx(self) -> Self::Inx
        ensures { Self.Inx.number result ≡ (key self).0 };

    /// Returns the generation.
    fn generation(self) -> Self::Gen
        ensures { result ≡ (key self).1 };

    /// Returns whether both are equal.
    fn is_same(self, other: Self) -> bool
        ensures { result ≡ same self other };

    /// Returns the pointer of these parts.
    fn _from_raw(inx: Self::Inx, generation: Self::Gen) -> Self
        ensures { key result ≡ (Self.Inx.number inx, generation) };

    ghost index_within: { (p : Self) → IsWithin Self.Inx.greatest (key p).0 };

    ghost same_key: { (p q : Self) → key p ≡ key q → p ≡ q };

    ghost same_is_equal: { (p q : Self) → (same p q ≡ true) ↔ (p ≡ q) };
}
