//! Turns.

ghost use Rattle.schedule_commands.specs.LeastTurns.{TakesLeastTurn};

use arena_ptr::PtrKey;
use chain_traits::ChainArenaTrait;
use run_queues::{Entry, Queue, RunQueues};

/// Gives a turn to the first task of the first queue that has one, and returns it.
pub fn next_of_first<P: PtrKey, T: Drop, A: ChainArenaTrait<P, Entry<T>> + Drop>(
    queues: &mut RunQueues<P, T, A>,
    ready: &[Queue<P>],
) -> Option<P>
    ensures { TakesLeastTurn A.state A.interlinks (λ q. P.key q.head) P.key queues.old ready.now
        result queues.new }
{
    for queue in ready {
        if let Some(task) = queues.next(*queue) {
            return Some(task);
        }
    }
    None
}
