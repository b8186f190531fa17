// Forwarding wrappers of calls of `RunQueues`.
ghost use Rattle.linked_lists.specs.LinkedLists.{PushesBack, RemovesListItem};

use arena_ptr::{AnyPointer, ChainInsertionError, InvalidationResult, InxKey, PtrKey};
use chain_traits::ChainArenaTrait;
use run_queues::{Entry, Queue, RunQueues};

/// Forwards to `RunQueues::spawn`, under its contract.
pub fn spawn<P: PtrKey, T: Drop, A: ChainArenaTrait<P, Entry<T>> + Drop>(
    queues: &mut RunQueues<P, T, A>,
    queue: Queue<P>,
    task: T,
) -> Result<P, ChainInsertionError>
    ensures { PushesBack A.state A.interlinks P.key P.Inx.greatest queues.old queue.head task
        result queues.new }
{
    queues.spawn(queue, task)
}

/// Forwards to `RunQueues::cancel`, under its contract.
pub fn cancel<P: PtrKey, T: Drop, A: ChainArenaTrait<P, Entry<T>> + Drop>(
    queues: &mut RunQueues<P, T, A>,
    task: P,
) -> InvalidationResult<T>
    ensures { RemovesListItem A.state A.interlinks ⟦<P as AnyPointer>⟧.pointers queues.old task
        result queues.new }
{
    queues.cancel(task)
}
