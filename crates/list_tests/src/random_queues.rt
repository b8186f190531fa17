//! Random calls on run queues beside the model of lists. The whole state is compared after each
//! call.

use crate::model::{
    Call, Goal, Item, Model, Reply, are_items_of, are_same, bit_of, count_reply, done_reply,
    failure_at, first_of, growth_error, insertion_reply, is_refused_memory, is_reply, new_model,
    pointer_of, pointer_reply, random, random_handle, random_item, value_reply,
};
use crate::values::{Values, has_number, number_in};
use arena_ptr::PtrKey;
use chain_traits::ChainArenaTrait;
use run_queues::{Entry, Queue, RunQueues};
use std::alloc::{AllocError, Global};

// Returns whether a task has its queue, and is no queue.
fn task_agrees<P: PtrKey, T: Drop, A: ChainArenaTrait<P, Entry<T>> + Drop>(
    queues: &RunQueues<P, T, A>,
    e: Item<P>,
) -> bool {
    let of = match queues.queue_of(e.p) {
        Some(queue) => queue.head.is_same(e.h),
        None => false,
    };
    of && queues.is_task(e.p) && !queues.is_queue(Queue { head: e.p })
}

// Returns whether a queue has the tasks of the model, in order, and is no task.
fn queue_agrees<P: PtrKey, T: Drop, A: ChainArenaTrait<P, Entry<T>> + Drop>(
    alloc: Global,
    queues: &RunQueues<P, T, A>,
    items: &[Item<P>],
    head: P,
) -> Result<bool, AllocError> {
    let queue = Queue { head };
    let first = are_same(queues.first(queue), first_of(items, head));
    if !first || !queues.is_queue(queue) || queues.is_task(head) {
        return Ok(false);
    }
    match queues.tasks(alloc, queue)? {
        Some(tasks) => Ok(are_items_of(tasks.as_slice(), items, head)),
        None => Ok(false),
    }
}

// Returns whether none of these pointers is a queue or a task.
fn are_stale<P: PtrKey, T: Drop, A: ChainArenaTrait<P, Entry<T>> + Drop>(
    queues: &RunQueues<P, T, A>,
    pointers: &[P],
) -> bool {
    for p in pointers {
        if queues.is_queue(Queue { head: *p }) || queues.is_task(*p) {
            return false;
        }
    }
    true
}

// Returns whether the tasks and the sizes are those of the model.
fn tasks_agree<P: PtrKey, T: Drop, A: ChainArenaTrait<P, Entry<T>> + Drop>(
    queues: &RunQueues<P, T, A>,
    model: &Model<P>,
) -> bool {
    for e in model.items.as_slice() {
        if !task_agrees(queues, *e) {
            return false;
        }
    }
    let links = model.items.len().saturating_add(model.handles.len());
    let empty = queues.is_empty() == model.handles.is_empty();
    let within = queues.len() <= queues.capacity() && queues.max_capacity().is_none();
    empty && within && queues.len() == links
}

// Returns whether tasks have the values of the model.
fn values_agree<P: PtrKey, T: Drop, A: ChainArenaTrait<P, Entry<T>> + Drop, V: Values<T>>(
    queues: &RunQueues<P, T, A>,
    items: &[Item<P>],
) -> bool {
    for e in items {
        if !has_number::<T, V>(queues.get(e.p), e.value) {
            return false;
        }
    }
    true
}

// Returns whether the whole state is that of the model.
fn agrees<P: PtrKey, T: Drop, A: ChainArenaTrait<P, Entry<T>> + Drop, V: Values<T>>(
    alloc: Global,
    queues: &RunQueues<P, T, A>,
    model: &Model<P>,
) -> Result<bool, AllocError> {
    queues.each_in_one_queue();
    for h in model.handles.as_slice() {
        if !queue_agrees(alloc, queues, model.items.as_slice(), *h)? {
            return Ok(false);
        }
    }
    let values = values_agree::<P, T, A, V>(queues, model.items.as_slice());
    Ok(values && tasks_agree(queues, model) && are_stale(queues, model.stale.as_slice()))
}

// Gives a turn, or wakes the first task of another queue.
fn wake_one<P: PtrKey, T: Drop, A: ChainArenaTrait<P, Entry<T>> + Drop>(
    queues: &mut RunQueues<P, T, A>,
    h: P,
    k: P,
) -> Reply<P> {
    let (list, queue) = (Queue { head: h }, Queue { head: k });
    pointer_reply(if h.is_same(k) {
        queues.next(queue)
    } else {
        queues.wake_one(list, queue)
    })
}

// Reserves capacity, and returns for how many of `n` links there is.
fn reserve<P: PtrKey, T: Drop, A: ChainArenaTrait<P, Entry<T>> + Drop>(
    queues: &mut RunQueues<P, T, A>,
    n: usize,
) -> Reply<P> {
    match queues.reserve(n) {
        Ok(()) => Reply::Count(n.min(queues.capacity().saturating_sub(queues.len()))),
        Err(error) => growth_error(error),
    }
}

// Makes a call that changes values or queues.
fn change<P: PtrKey, T: Drop, A: ChainArenaTrait<P, Entry<T>> + Drop, V: Values<T>>(
    queues: &mut RunQueues<P, T, A>,
    call: Call<P>,
) -> Reply<P> {
    match call {
        Call::Replace(p, value) => {
            value_reply(number_in::<T, V>(queues.replace(p, V::value_of(value))))
        }
        Call::Remove(p) => value_reply(number_in::<T, V>(queues.cancel(p).allow())),
        Call::RemoveList(head) => count_reply(queues.remove_queue(Queue { head }).allow()),
        _ => match queues.new_queue() {
            Ok(queue) => Reply::Pointer(queue.head),
            Err(error) => growth_error(error),
        },
    }
}

// Makes a call. `Join` names the queue before the list whose tasks wake.
fn make_call<P: PtrKey, T: Drop, A: ChainArenaTrait<P, Entry<T>> + Drop, V: Values<T>>(
    queues: &mut RunQueues<P, T, A>,
    call: Call<P>,
) -> Reply<P> {
    match call {
        Call::Insert(goal, value) => {
            let head = pointer_of(goal);
            insertion_reply(queues.spawn(Queue { head }, V::value_of(value)))
        }
        Call::Move(p, goal) => {
            let head = pointer_of(goal);
            done_reply(queues.move_to(p, Queue { head }))
        }
        Call::Join(h, k) => done_reply(queues.wake_all(Queue { head: k }, Queue { head: h })),
        Call::WakeOne(h, k) => wake_one(queues, h, k),
        Call::Reserve(n) => reserve(queues, n),
        _ => change::<P, T, A, V>(queues, call),
    }
}

// Returns a call. There are at most four queues.
fn random_call<P: PtrKey>(model: &Model<P>, seed: &mut u32) -> Call<P> {
    let call = random(seed, 32);
    let p = random_item(model, seed);
    let h = random_handle(model, seed);
    let k = random_handle(model, seed);
    let value = *seed;
    match call {
        0..=3 => Call::WakeOne(h, h),
        4..=7 => Call::WakeOne(h, k),
        8..=11 => Call::Move(p, Goal::Back(h)),
        12 | 13 => Call::Join(h, k),
        14 => Call::Replace(p, value),
        15..=18 => Call::Remove(p),
        19 => Call::RemoveList(h),
        20 | 21 => Call::Reserve(random(seed, 8)),
        22..=24 if model.handles.len() < 4 => Call::NewList,
        _ => Call::Insert(Goal::Back(h), value),
    }
}

// Makes a call in both, again if it is refused memory, which changes nothing. Returns whether they
// agree.
fn step<P: PtrKey, T: Drop, A: ChainArenaTrait<P, Entry<T>> + Drop, V: Values<T>>(
    alloc: Global,
    queues: &mut RunQueues<P, T, A>,
    model: &mut Model<P>,
    call: Call<P>,
) -> Result<bool, AllocError> {
    let capacity = queues.capacity();
    let mut reply = make_call::<P, T, A, V>(queues, call);
    if is_refused_memory(reply) {
        if queues.capacity() != capacity || !agrees::<P, T, A, V>(alloc, &*queues, &*model)? {
            return Ok(false);
        }
        model.refused |= bit_of(call);
        reply = make_call::<P, T, A, V>(queues, call);
    }
    Ok(is_reply(model, call, reply)? && agrees::<P, T, A, V>(alloc, &*queues, &*model)?)
}

// Makes random calls on new queues, and adds the bits of those that were refused memory. Returns the
// number of the first after which they differ from the model, from 1 on, or 0.
fn first_difference_of<P: PtrKey, T: Drop, A: ChainArenaTrait<P, Entry<T>> + Drop, V: Values<T>>(
    alloc: Global,
    mut seed: u32,
    refused: &mut u32,
) -> Result<u32, AllocError> {
    let mut queues = RunQueues::<P, T, A>::new(alloc);
    let mut model: Model<P> = new_model(alloc);
    for n in 0..250 {
        let call = random_call(&model, &mut seed);
        if !step::<P, T, A, V>(alloc, &mut queues, &mut model, call)? {
            return Ok(n + 1);
        }
    }
    *refused |= model.refused;
    Ok(0)
}

// Returns the bits of the calls that were refused memory, or a seed and a call after which the queues
// differ from the model.
pub fn outcome<P: PtrKey, T: Drop, A: ChainArenaTrait<P, Entry<T>> + Drop, V: Values<T>>(
    alloc: Global,
) -> u32 {
    let mut refused = 0;
    for seed in 0..16 {
        match first_difference_of::<P, T, A, V>(alloc, seed, &mut refused) {
            Ok(0) => {}
            difference => return failure_at(seed, difference),
        }
    }
    refused
}
