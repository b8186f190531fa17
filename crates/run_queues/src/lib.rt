//! Queues of tasks in one arena, each task in exactly one queue.
#![tactic(auto)]

mod run_queues;

pub use linked_lists::{Entry, ListHandle as Queue};
pub use run_queues::{
    RunQueues, calls_are_fair, calls_keep_tasks, calls_make_changes, calls_take_steps,
    turns_are_fair,
};
