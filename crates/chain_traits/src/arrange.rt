ghost use Rattle.std.specs.Prelude.{◌≡◌, ◌↔◌, ◌∷◌, map, IsTrue};
ghost use Rattle.arena_traits.specs.Arena.{IsValid};
ghost use Rattle.chain_laws.specs.Orders.{with_followers, with_order};
ghost use Rattle.chain_links.specs.CallEffects.{AreMovedAfter, AreMovedInTurn};
ghost use Rattle.chain_links.specs.ChainArena.{CanPutInOrder};

use crate::chain_traits::ChainArenaTrait;
use arena_ptr::{InxKey, PtrKey};

fn can_follow<P: PtrKey, T: Drop, A: ChainArenaTrait<P, T>>(
    arena: &A,
    first: P,
    followers: &[P],
) -> bool
    requires { IsValid (A.entry arena.now) (P.key first) }
    ensures { IsTrue result ↔ CanPutInOrder (A.entry arena.now)
        (map P.key (first ∷ followers.now)) }
{
    let mut before = first;
    for q in followers {
        if !arena.contains(*q) || q.inx().is_same(before.inx()) {
            return false;
        }
        before = *q;
    }
    true
}

pub fn can_arrange<P: PtrKey, T: Drop, A: ChainArenaTrait<P, T>>(arena: &A, order: &[P]) -> bool
    ensures { IsTrue result ↔ CanPutInOrder (A.entry arena.now) (map P.key order.now) }
{
    match order.split_first() {
        Some((first, followers)) => arena.contains(*first) && can_follow(arena, *first, followers),
        None => true,
    }
}

fn move_followers<P: PtrKey, T: Drop, A: ChainArenaTrait<P, T>>(
    arena: &mut A,
    first: P,
    followers: &[P],
)
    requires { CanPutInOrder (A.entry arena.old) (map P.key (first ∷ followers.now)) }
    ensures links { A.interlinks arena.new ≡ with_followers (A.interlinks arena.old)
        (P.key first).0 (map (λ q. (P.key q).0) followers.now) }
    ensures view { A.view arena.new ≡ A.view arena.old }
    ensures moves { AreMovedAfter A.moves arena.old first followers.now arena.new }
{
    let mut before = first;
    for q in followers {
        arena.move_after(*q, before);
        before = *q;
    }
}

pub fn move_in_turn<P: PtrKey, T: Drop, A: ChainArenaTrait<P, T>>(arena: &mut A, order: &[P])
    requires { CanPutInOrder (A.entry arena.old) (map P.key order.now) }
    ensures links { A.interlinks arena.new ≡ with_order (A.interlinks arena.old)
        (map (λ q. (P.key q).0) order.now) }
    ensures view { A.view arena.new ≡ A.view arena.old }
    ensures moves { AreMovedInTurn A.moves arena.old order.now arena.new }
{
    if let Some((first, followers)) = order.split_first() {
        move_followers(arena, *first, followers);
    }
}
