// The keys of one set.
ghost use Rattle.std.specs.Prelude.{◌≡◌};
ghost use Rattle.std.specs.Iterator.{YieldsFirstBy, item_count};
ghost use Rattle.surject_arena.specs.KeySets.{ListsKeys};

use crate::members::Member;
use arena_ptr::PtrKey;
use arena_traits::Advancer;
use chain_traits::ChainArenaTrait;
use chain_traits::walks::advancer_passes_the_walk;
use std::marker::{Model, PhantomData};

/// An iterator over the pointers of a set.
#[derive(Drop)]
pub struct KeySet<'a, P: PtrKey, K: Drop, A: ChainArenaTrait<P, Member<P, K>>> {
    keys: &'a A,
    along: A::ChainPtrAdvancer,
    of: PhantomData<(P, K)>,
}

impl<'a, P: PtrKey, K: Drop, A: ChainArenaTrait<P, Member<P, K>>> Model for KeySet<'a, P, K, A> {
    ghost use Rattle.std.specs.Prelude.{ℕ, List};
    ghost use Rattle.chain_laws.specs.Walks.{passes_ahead};
    ghost use Rattle.surject_arena.specs.KeySets.{pointers_at};

    ghost Value = { List (ℕ × P.Gen) };

    ghost view = { λ it. pointers_at (A.entry it.keys.now) (passes_ahead (A.interlinks it.keys.now)
        (A.walker it.along)) };
}

pub(crate) fn keys_from<P: PtrKey, K: Drop, A: ChainArenaTrait<P, Member<P, K>>>(
    keys: &A,
    p: P,
) -> Option<KeySet<'_, P, K, A>>
    ensures { ListsKeys A.state A.interlinks P.key keys.now p result }
{
    advancer_passes_the_walk(keys, p);
    match keys.advancer_chain(p) {
        Some(along) => Some(KeySet {
            keys,
            along,
            of: PhantomData,
        }),
        None => None,
    }
}

impl<'a, P: PtrKey, K: Drop, A: ChainArenaTrait<P, Member<P, K>>> Iterator for KeySet<'a, P, K, A> {
    type Item = P;

    ghost next_gives = { YieldsFirstBy P.key (λ rest. rest) };

    ghost remaining = { item_count (λ rest. rest) };

    fn next(&mut self) -> Option<P> {
        self.along.advance(self.keys)
    }
}
