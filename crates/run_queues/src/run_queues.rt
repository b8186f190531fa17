//! Run queues.

ghost use Rattle.std.specs.Prelude.{◌≡◌, ◌↔◌, ◌+◌, ℕ, [], IsTrue, IfSome, IfOk, OnOk, IsSome, None, Some};
ghost use Rattle.arena_traits.specs.Entries.{IsNew, count};
ghost use Rattle.chain_laws.specs.declared.insert_kind.InsertKind.TheVariants as kinds;
ghost use Rattle.chain_lists.specs.Sizes.{ReservesMore, CountsEntries, ReportsCapacity};
ghost use Rattle.linked_lists.specs.LinkedLists.{AllInLists, IsHandle, IsItem, ReadsValue, ReadsFirst, ReadsHandle, ListsItems, CreatesList, PushesBack, RemovesListItem, ReplacesItem, MovesToBack, JoinsLists, RemovesList};
ghost use Rattle.run_queues.specs.Histories.{CallsMakeChanges, CallsTakeSteps, CallsAreFair, CallsKeepTasks};
ghost use Rattle.run_queues.specs.RunQueues.{TakesTurn, WakesOne};
ghost use Rattle.run_queues.specs.Turns.{TasksStayAhead, TurnsAreFair};

use arena_ptr::{
    AnyPointer, ChainInsertionError, GenKey, InvalidationResult, InxKey, PtrKey, ReallocationError,
};
use chain_traits::ChainArenaTrait;
use linked_lists::{Entry, LinkedLists, ListHandle as Queue};
use std::alloc::{AllocError, Global};
use std::marker::Model;

/// Queues of tasks in one arena.
///
/// A pointer identifies its task in any queue until it is canceled. Pointers, handles, removals and
/// errors are as in `LinkedLists`, whose lists are the queues. Calls return `None`, `InvalidPtr` or
/// `FailedLinkRequirement` if `task` is not a task, or `queue` or `list` is not a handle. A refused
/// call changes nothing and drops the value it was given. A wait list is a queue without calls of
/// `next`.
///
/// Contracts see the arena. A queue is the list of its tasks (`IsList`).
#[derive(Drop)]
pub struct RunQueues<P: PtrKey, T: Drop, A: ChainArenaTrait<P, Entry<T>> + Drop> {
    lists: LinkedLists<P, T, A>,
}

impl<P: PtrKey, T: Drop, A: ChainArenaTrait<P, Entry<T>> + Drop> Model for RunQueues<P, T, A> {
    ghost Value = { A };

    ghost view = { λ m. m.lists };
}

impl<P: PtrKey, T: Drop, A: ChainArenaTrait<P, Entry<T>> + Drop> RunQueues<P, T, A> {
    /// Creates an empty collection without allocating.
    pub fn new(alloc: Global) -> Self
        ensures new { IsNew P.Gen.first (A.view result) }
        ensures capacity { (A.view result).capacity ≡ 0 }
        ensures implementation { A.starts 0 result }
    {
        RunQueues {
            lists: LinkedLists::new(alloc),
        }
    }

    /// Returns the number of tasks plus the number of queues.
    pub fn len(&self) -> usize
        ensures { CountsEntries (A.view self.now) result }
    {
        self.lists.len()
    }

    /// Returns `true` if there are no queues.
    pub fn is_empty(&self) -> bool
        ensures { IsTrue result ↔ ((A.view self.now).entries ≡ []) }
    {
        self.lists.is_empty()
    }

    /// Returns the number of tasks and queues that fit without growing.
    pub fn capacity(&self) -> usize
        ensures { ReportsCapacity (A.view self.now) P.Inx.greatest result }
    {
        self.lists.capacity()
    }

    /// Returns the maximum capacity, or `None` if unlimited.
    pub fn max_capacity(&self) -> Option<usize>
        ensures { result ≡ (A.view self.now).maximum }
    {
        self.lists.max_capacity()
    }

    /// Reserves capacity for at least `additional` more tasks and queues.
    ///
    /// # Errors
    ///
    /// - `BeyondMaxCapacity`
    /// - `AllocError`
    pub fn reserve(&mut self, additional: usize) -> Result<(), ReallocationError>
        ensures reserves { ReservesMore A.state A.interlinks P.Inx.greatest additional self.old
            result self.new }
        ensures implementation { OnOk result (A.grows (count (A.view self.old) + additional)
            self.old self.new) }
    {
        self.lists.reserve(additional)
    }

    /// States that each task is in exactly one queue, at one place; has no effect.
    pub fn each_in_one_queue(&self)
        ensures { AllInLists A.state A.interlinks self.now }
    {
        self.lists.all_in_lists();
    }

    /// Returns whether `queue` is a handle.
    pub fn is_queue(&self, queue: Queue<P>) -> bool
        ensures { IsTrue result ↔ IsHandle (A.entry self.now) (P.key queue.head) }
    {
        self.lists.is_list(queue)
    }

    /// Returns whether `task` is a task.
    pub fn is_task(&self, task: P) -> bool
        ensures { IsTrue result ↔ IsItem (A.entry self.now) (P.key task) }
    {
        self.lists.is_item(task)
    }

    /// Returns the value of a task.
    pub fn get(&self, task: P) -> Option<&T>
        ensures { ReadsValue (A.entry self.now) (P.key task) result }
    {
        self.lists.get(task)
    }

    /// Returns the first task of a queue, or `None` if it is empty.
    pub fn first(&self, queue: Queue<P>) -> Option<P>
        ensures { ReadsFirst A.state A.interlinks P.key self.now queue.head result }
    {
        self.lists.first(queue)
    }

    /// Returns the queue of a task, in at most as many steps as the queue has tasks.
    pub fn queue_of(&self, task: P) -> Option<Queue<P>>
        ensures { ReadsHandle A.state A.interlinks P.key (λ q. P.key q.head) self.now task result }
    {
        self.lists.list_of(task)
    }

    /// Returns the tasks of a queue, in order.
    ///
    /// # Errors
    ///
    /// - `AllocError`
    pub fn tasks(&self, alloc: Global, queue: Queue<P>) -> Result<Option<Vec<P>>, AllocError>
        ensures some { IfOk result (λ r. IsSome r ↔ IsHandle (A.entry self.now)
            (P.key queue.head)) }
        ensures tasks { IfOk result (λ r. IfSome r (λ pointers. ListsItems A.state A.interlinks
            P.key self.now queue.head pointers.items)) }
    {
        self.lists.walk(alloc, queue)
    }

    /// Creates an empty queue and returns its handle.
    ///
    /// # Errors
    ///
    /// - `BeyondMaxCapacity`
    /// - `AllocError`
    pub fn new_queue(&mut self) -> Result<Queue<P>, ReallocationError>
        ensures outcome { CreatesList A.state A.interlinks (λ q. P.key q.head) P.Inx.greatest
            self.old result self.new }
        ensures implementation { IfOk result (λ q. A.inserts self.old kinds.SingleLinkCyclic
            Entry.Head self.new q.head) }
    {
        self.lists.new_list()
    }

    /// Inserts a task at the end of a queue and returns its pointer.
    ///
    /// # Errors
    ///
    /// - `FailedLinkRequirement`
    /// - `BeyondMaxCapacity`
    /// - `AllocError`
    pub fn spawn(&mut self, queue: Queue<P>, task: T) -> Result<P, ChainInsertionError>
        ensures outcome { PushesBack A.state A.interlinks P.key P.Inx.greatest self.old queue.head
            task result self.new }
        ensures implementation { IfOk result (A.inserts self.old (kinds.PrevTo queue.head)
            (Entry.Item task) self.new) }
    {
        self.lists.push_back(queue, task)
    }

    /// Replaces the value of a task and returns the former one.
    pub fn replace(&mut self, task: P, value: T) -> Option<T>
        ensures { ReplacesItem A.state A.interlinks self.old (P.key task) value result self.new }
    {
        self.lists.replace(task, value)
    }

    /// Removes a task and returns its value.
    pub fn cancel(&mut self, task: P) -> InvalidationResult<T>
        ensures { RemovesListItem A.state A.interlinks ⟦<P as AnyPointer>⟧.pointers self.old task
            result self.new }
    {
        self.lists.remove(task)
    }

    /// Removes a queue, drops its tasks and returns their number.
    pub fn remove_queue(&mut self, queue: Queue<P>) -> InvalidationResult<usize>
        ensures { RemovesList A.state A.interlinks P.Gen.wraps P.Gen.following self.old
            (P.key queue.head) result self.new }
    {
        self.lists.remove_list(queue)
    }

    /// Moves the first task to the end (its turn) and returns it, or `None` if there is none.
    pub fn next(&mut self, queue: Queue<P>) -> Option<P>
        ensures { TakesTurn A.state A.interlinks P.key self.old queue.head result self.new }
    {
        self.wake_one(queue, queue)
    }

    /// Moves a task to the end of any queue.
    pub fn move_to(&mut self, task: P, queue: Queue<P>) -> Option<()>
        ensures { MovesToBack A.state A.interlinks self.old (P.key task) (P.key queue.head) result
            self.new }
    {
        self.lists.move_to_back(task, queue)
    }

    /// Moves the first task of `list` to the end of `queue` and returns it, or `None` if there is
    /// none.
    pub fn wake_one(&mut self, list: Queue<P>, queue: Queue<P>) -> Option<P>
        ensures { WakesOne A.state A.interlinks P.key self.old list.head queue.head result
            self.new }
    {
        self.lists.all_in_lists();
        match self.lists.first(list) {
            Some(task) => match self.lists.move_to_back(task, queue) {
                Some(()) => Some(task),
                None => None,
            },
            None => None,
        }
    }

    /// Moves all tasks of `list` to the end of `queue`, in order, or returns `None` if both are the
    /// same.
    pub fn wake_all(&mut self, list: Queue<P>, queue: Queue<P>) -> Option<()>
        ensures { JoinsLists A.state A.interlinks self.old (P.key queue.head) (P.key list.head)
            result self.new }
    {
        self.lists.join(queue, list)
    }
}

/// States that between two turns of a task, each other task that was in the queue has a turn or
/// leaves, since a task that is ahead stays ahead until then.
pub fn turns_are_fair<P: PtrKey>()
    ensures ahead { TasksStayAhead (ℕ × P.Gen) }
    ensures fair { TurnsAreFair (ℕ × P.Gen) }
{}

/// States that each call that succeeds makes a change of the laws below.
pub fn calls_make_changes<P: PtrKey, T: Drop, A: ChainArenaTrait<P, Entry<T>>>()
    ensures { CallsMakeChanges A.state A.interlinks ⟦<P as AnyPointer>⟧.pointers
        (λ (q : Queue P P.Inx P.Gen P.Inx.Word). P.key q.head) }
{}

/// States that only `next` gives turns, and that tasks leave a queue only by `move_to`, `wake_one`,
/// `wake_all` and `cancel`, unless it is removed.
pub fn calls_take_steps<P: PtrKey, T: Drop, A: ChainArenaTrait<P, Entry<T>>>()
    ensures { CallsTakeSteps A.state A.interlinks ⟦<P as AnyPointer>⟧.pointers }
{}

/// States that between two turns of a task, `next` gives one to each other task of the queue that
/// no call moves, wakes, cancels or removes.
pub fn calls_are_fair<P: PtrKey, T: Drop, A: ChainArenaTrait<P, Entry<T>>>()
    ensures { CallsAreFair A.state A.interlinks ⟦<P as AnyPointer>⟧.pointers }
{}

/// States that after any calls each earlier task is in exactly one queue, at one place, unless a
/// call ended it.
pub fn calls_keep_tasks<P: PtrKey, T: Drop, A: ChainArenaTrait<P, Entry<T>>>()
    ensures { CallsKeepTasks A.state A.interlinks ⟦<P as AnyPointer>⟧.pointers }
{}
