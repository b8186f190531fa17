//! A scheduler of named tasks.

ghost use Rattle.std.specs.Prelude.{◌≡◌};
ghost use Rattle.schedule_commands.specs.declared.scheduler.CommandError.TheVariants.{Refused, Memory};

use crate::refusal::Refusal;
use crate::turns::next_of_first;
use arena_ptr::PtrKey;
use chain_traits::ChainArenaTrait;
use run_queues::{Entry, Queue, RunQueues};
use std::alloc::{AllocError, AllocFailed, Global};
use std::collections::HashMap;

#[derive(Clone, Copy, Debug, PartialEq, Eq)]
pub enum CommandError {
    Refused(Refusal),
    Memory,
}

impl From<AllocError> for CommandError {
    ghost from_gives = { λ _ e. e ≡ Memory };

    fn from(_error: AllocError) -> CommandError {
        CommandError::Memory
    }
}

impl<T: Drop> From<AllocFailed<T>> for CommandError {
    ghost from_gives = { λ _ e. e ≡ Memory };

    fn from(_error: AllocFailed<T>) -> CommandError {
        CommandError::Memory
    }
}

impl From<Refusal> for CommandError {
    ghost from_gives = { λ why e. e ≡ Refused why };

    fn from(refusal: Refusal) -> CommandError {
        CommandError::Refused(refusal)
    }
}

const PRIORITIES: usize = 10;

#[derive(Drop)]
pub struct Task<P: PtrKey> {
    name: String,
    pointer: P,
    queue: Queue<P>,
    is_blocked: bool,
    turns: u64,
}

impl<P: PtrKey> Task<P> {
    pub fn name(&self) -> &str {
        &self.name
    }

    pub fn turns(&self) -> u64 {
        self.turns
    }
}

/// An index in the order of spawning.
#[derive(Drop)]
pub struct Place {
    index: usize,
}

/// `ready` has a queue for each priority, `waiting` for each event. `names` has the index of each
/// task that was not killed.
#[derive(Drop)]
pub struct Scheduler<P: PtrKey, A: ChainArenaTrait<P, Entry<Place>> + Drop> {
    queues: RunQueues<P, Place, A>,
    ready: Vec<Queue<P>>,
    waiting: HashMap<String, Queue<P>>,
    tasks: Vec<Task<P>>,
    names: HashMap<String, usize>,
    alloc: Global,
}

impl<P: PtrKey, A: ChainArenaTrait<P, Entry<Place>> + Drop> Scheduler<P, A> {
    pub fn new(alloc: Global) -> Result<Self, AllocError> {
        let mut queues = RunQueues::new(alloc);
        let mut ready = Vec::new(alloc);
        for _ in 0..PRIORITIES {
            match queues.new_queue() {
                Ok(queue) => ready.push(queue)?,
                Err(_) => return Err(AllocError),
            }
        }
        Ok(Scheduler {
            queues,
            ready,
            waiting: HashMap::new(alloc),
            tasks: Vec::new(alloc),
            names: HashMap::new(alloc),
            alloc,
        })
    }

    pub fn tasks(&self) -> &[Task<P>] {
        &self.tasks
    }

    /// Begins a task, last in the queue of its priority.
    pub fn spawn(&mut self, name: &str, priority: u8) -> Result<(), CommandError> {
        if self.names.contains_key(name) {
            return Err(CommandError::Refused(Refusal::NameInUse));
        }
        let Some(queue) = self.ready.get(usize::from(priority)).copied() else {
            return Err(CommandError::Refused(Refusal::BadNumber));
        };
        let key = String::from_str(self.alloc, name)?;
        let name = String::from_str(self.alloc, name)?;
        let index = self.tasks.len();
        self.tasks.reserve(1)?;
        self.names.reserve(1)?;
        let Ok(pointer) = self.queues.spawn(queue, Place { index }) else {
            return Err(CommandError::Memory);
        };
        self.names.insert(key, index)?;
        self.tasks.push(Task {
            name,
            pointer,
            queue,
            is_blocked: false,
            turns: 0,
        })?;
        Ok(())
    }

    /// Gives the first task by priority a turn, and returns its name.
    pub fn turn(&mut self) -> Option<&str> {
        let pointer = next_of_first(&mut self.queues, &self.ready)?;
        let index = self.queues.get(pointer)?.index;
        let task = self.tasks.get_mut(index)?;
        task.turns = task.turns.saturating_add(1);
        Some(&task.name)
    }

    /// Moves a task to the wait list of an event.
    pub fn block(&mut self, name: &str, event: &str) -> Result<(), CommandError> {
        let Some(index) = self.names.get(name).copied() else {
            return Err(CommandError::Refused(Refusal::UnknownName));
        };
        if self.tasks.get(index).is_none_or(|task| task.is_blocked) {
            return Err(CommandError::Refused(Refusal::AlreadyBlocked));
        }
        let list = self.wait_list(event)?;
        if let Some(task) = self.tasks.get_mut(index) {
            task.is_blocked = true;
            self.queues.move_to(task.pointer, list);
        }
        Ok(())
    }

    fn wait_list(&mut self, event: &str) -> Result<Queue<P>, CommandError> {
        if let Some(list) = self.waiting.get(event).copied() {
            return Ok(list);
        }
        let key = String::from_str(self.alloc, event)?;
        self.waiting.reserve(1)?;
        let Ok(list) = self.queues.new_queue() else {
            return Err(CommandError::Memory);
        };
        self.waiting.insert(key, list)?;
        Ok(list)
    }

    /// Moves the tasks that wait for an event to their queues, in order.
    pub fn wake(&mut self, event: &str) -> Result<(), Refusal> {
        let Some(list) = self.waiting.get(event).copied() else {
            return Err(Refusal::NobodyWaits);
        };
        if self.queues.first(list).is_none() {
            return Err(Refusal::NobodyWaits);
        }
        for _ in 0..self.tasks.len() {
            if self.wake_first(list).is_none() {
                break;
            }
        }
        Ok(())
    }

    fn wake_first(&mut self, list: Queue<P>) -> Option<P> {
        let pointer = self.queues.first(list)?;
        let index = self.queues.get(pointer)?.index;
        let task = self.tasks.get_mut(index)?;
        task.is_blocked = false;
        self.queues.wake_one(list, task.queue)
    }

    pub fn kill(&mut self, name: &str) -> Result<(), Refusal> {
        let Some(index) = self.names.remove(name) else {
            return Err(Refusal::UnknownName);
        };
        if let Some(task) = self.tasks.get(index) {
            let _ = self.queues.cancel(task.pointer);
        }
        Ok(())
    }
}
