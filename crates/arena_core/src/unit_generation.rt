ghost use Rattle.std.specs.Prelude.{◌≡◌, IsOk};

use crate::keys::GenKey;
use crate::ptr::PtrGen;
use std::fmt;

impl GenKey for () {
    ghost use Rattle.std.specs.Prelude.{true, false};
    ghost use Rattle.std.proofs.Common.{refl, rules};

    ghost first = { tt };

    ghost following = { λ g. g };

    ghost wraps = { λ _. false };

    ghost same = { λ _ _. true };

    ghost begins_again = { λ _ _. refl };

    ghost same_is_equal = { Prim.search rules };

    fn two() -> Self {}

    fn generational_inc(self) -> (Self, bool) {
        ((), false)
    }

    fn is_same(self, _other: Self) -> bool {
        true
    }
}

impl PtrGen for () {
    ghost use Rattle.std.specs.Prelude.{[]};
    ghost use Rattle.std.proofs.Common.{refl};

    ghost text = { λ _. [] };

    ghost eq_is_same = { λ _ _. refl };

    fn fmt_gen<W: fmt::Write>(self, f: &mut fmt::Formatter<W>) -> fmt::Result
        ensures writes { f.new ≡ f.old }
        ensures ok { IsOk result }
    {
        Ok(())
    }
}
