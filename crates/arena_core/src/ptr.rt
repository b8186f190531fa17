ghost use Rattle.std.specs.Prelude.{◌≡◌, ℕ, List};
ghost use Rattle.std.specs.Fmt.{WritesOnOk};
ghost use Rattle.arena_core.specs.PointerText.{hexadecimal};

use crate::keys::{GenKey, InxKey, PtrKey};
use std::fmt;
use std::fmt::Debug;
use std::hash::Hash;

/// An index with order, hash and texts.
///
/// Port of `PtrInx`.
pub trait PtrInx: InxKey + Eq + Ord + Hash + Debug {
    /// Writes lower-case hexadecimal, ignoring the caller's format.
    fn fmt_hex<W: fmt::Write>(self, f: &mut fmt::Formatter<W>) -> fmt::Result
        ensures { WritesOnOk W.write_str_gives f.old result (hexadecimal (Self.number self))
            f.new };

    ghost eq_is_same: { (i j : Self) → Self.eq i j ≡ Self.same i j };
}

/// A generation with order, hash and texts.
///
/// Port of `PtrGen`.
pub trait PtrGen: GenKey + Eq + Ord + Hash + Debug {
    ghost text: { Self → List ℕ };

    /// Writes the generation in hexadecimal as `(2)`, or nothing for `()`, ignoring the caller's
    /// format.
    fn fmt_gen<W: fmt::Write>(self, f: &mut fmt::Formatter<W>) -> fmt::Result
        ensures { WritesOnOk W.write_str_gives f.old result (text self) f.new };

    ghost eq_is_same: { (g h : Self) → Self.eq g h ≡ Self.same g h };
}

/// A pointer with order, hash and texts.
///
/// Port of `Ptr`.
pub trait Ptr: PtrKey<Inx: PtrInx, Gen: PtrGen> + Eq + Ord + Hash + Debug {
    ghost type_name: { List ℕ };

    /// Returns the type's name, which begins its text.
    fn name() -> &'static str
        ensures { result.now ≡ type_name };

    ghost eq_is_same: { (p q : Self) → Self.eq p q ≡ Self.same p q };
}
