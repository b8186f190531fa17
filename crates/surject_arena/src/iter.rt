// All keys.
ghost use Rattle.std.specs.Prelude.{◌≡◌, map};
ghost use Rattle.std.specs.Iterator.{YieldsFirstBy, item_count};

use crate::members::Member;
use arena_ptr::PtrKey;
use arena_traits::Advancer;
use chain_traits::ChainArenaTrait;
use std::marker::{Model, PhantomData};

/// An iterator over the pointers of all keys.
#[derive(Drop)]
pub struct Iter<'a, P: PtrKey, K: Drop, A: ChainArenaTrait<P, Member<P, K>>> {
    keys: &'a A,
    all: A::PtrAdvancer,
    of: PhantomData<(P, K)>,
}

impl<'a, P: PtrKey, K: Drop, A: ChainArenaTrait<P, Member<P, K>>> Model for Iter<'a, P, K, A> {
    ghost use Rattle.std.specs.Prelude.{ℕ, List, map};
    ghost use Rattle.arena_traits.specs.Advancers.{ahead};
    ghost use Rattle.surject_arena.specs.KeySets.{IsAscending};

    ghost Value = { List (ℕ × P.Gen) };

    ghost view = { λ it. map (λ e. e.0) (ahead (A.cursor it.all) (A.view it.keys.now).entries) };

    ghost invariant = { λ it. IsAscending (A.cursor it.all) };
}

pub(crate) fn all_keys<P: PtrKey, K: Drop, A: ChainArenaTrait<P, Member<P, K>>>(
    keys: &A,
) -> Iter<'_, P, K, A>
    ensures { result ≡ map (λ e. e.0) (A.view keys.now).entries }
{
    keys.agrees();
    Iter {
        keys,
        all: keys.advancer(),
        of: PhantomData,
    }
}

impl<'a, P: PtrKey, K: Drop, A: ChainArenaTrait<P, Member<P, K>>> Iterator for Iter<'a, P, K, A> {
    type Item = P;

    ghost next_gives = { YieldsFirstBy P.key (λ rest. rest) };

    ghost remaining = { item_count (λ rest. rest) };

    fn next(&mut self) -> Option<P> {
        self.all.advance(self.keys)
    }
}
