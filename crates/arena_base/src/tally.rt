ghost use Rattle.std.specs.Prelude.{◌≡◌, ℕ, ◌+◌};
ghost use Rattle.std.specs.Borrow.{ftrue};

use std::marker::Model;

#[derive(Drop)]
pub struct Tally {
    pub ghost count: { ℕ },
}

impl Model for Tally {
    ghost also_owns = { λ _. ftrue };
}

const _: () = prove!(std::mem::size_of::<Tally>() == 0);

impl Tally {
    pub(crate) fn zero() -> Tally
        ensures { result.count ≡ 0 }
    {
        Tally {}
    }

    pub(crate) fn one_more(&self) -> Tally
        ensures { result.count ≡ self.now.count + 1 }
    {
        Tally {}
    }
}
