// A forwarding wrapper of a call of `LinkedLists`.
ghost use Rattle.linked_lists.specs.LinkedLists.{MovesAfterItem};

use arena_ptr::PtrKey;
use chain_traits::ChainArenaTrait;
use linked_lists::{Entry, LinkedLists};

/// Forwards to `LinkedLists::move_after`, under its contract.
pub fn move_after<P: PtrKey, T: Drop, A: ChainArenaTrait<P, Entry<T>> + Drop>(
    lists: &mut LinkedLists<P, T, A>,
    p: P,
    q: P,
) -> Option<()>
    ensures { MovesAfterItem A.state A.interlinks lists.old (P.key p) (P.key q) result lists.new }
{
    lists.move_after(p, q)
}
