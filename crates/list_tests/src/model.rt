//! A plain model of lists: a vector of items, each with the handle of its list.
//!
//! A list is the items with its handle, in the order of the vector. A handle is given by its head.

use arena_ptr::{ChainInsertionError, PtrKey, ReallocationError};
use linked_lists::ListHandle;
use std::alloc::{AllocError, Global};

// An item: its pointer, its value, and its list.
#[derive(Clone, Copy)]
pub struct Item<P> {
    pub p: P,
    pub value: u32,
    pub h: P,
}

// The lists, the items, the last pointers and handles that were removed, and the bits of the calls
// that were refused memory.
#[derive(Drop)]
pub struct Model<P> {
    pub handles: Vec<P>,
    pub items: Vec<Item<P>>,
    pub stale: Vec<P>,
    pub refused: u32,
}

pub fn new_model<P: PtrKey>(alloc: Global) -> Model<P> {
    Model {
        handles: Vec::new(alloc),
        items: Vec::new(alloc),
        stale: Vec::new(alloc),
        refused: 0,
    }
}

// A place of items: at the start or the end of a list, or beside an item.
#[derive(Clone, Copy)]
pub enum Goal<P> {
    Front(P),
    Back(P),
    After(P),
    Before(P),
}

// A call with its arguments. `Write` writes through `get_mut`. `Join` moves the items of the second
// list behind those of the first, `WakeOne` the first item of the first list behind the second.
pub enum Call<P> {
    NewList,
    Insert(Goal<P>, u32),
    Replace(P, u32),
    Write(P, u32),
    Remove(P),
    RemoveList(P),
    Move(P, Goal<P>),
    MoveRange((P, P), Goal<P>),
    Join(P, P),
    Split(P),
    Reserve(usize),
    WakeOne(P, P),
}

// By hand, since a derived clone copies field by field, which costs more to prove.
impl<P: Copy> Clone for Call<P> {
    fn clone(&self) -> Result<Self, AllocError> {
        Ok(*self)
    }
}

impl<P: Copy> Copy for Call<P> {}

// What a call returns. `Refused` means that an argument is not valid.
pub enum Reply<P> {
    Done,
    Pointer(P),
    Value(u32),
    Count(usize),
    Refused,
    NotRange,
    NoMemory,
    BeyondMaximum,
}

impl<P: Copy> Clone for Reply<P> {
    fn clone(&self) -> Result<Self, AllocError> {
        Ok(*self)
    }
}

impl<P: Copy> Copy for Reply<P> {}

pub fn done_reply<P: PtrKey>(done: Option<()>) -> Reply<P> {
    match done {
        Some(()) => Reply::Done,
        None => Reply::Refused,
    }
}

pub fn pointer_reply<P: PtrKey>(pointer: Option<P>) -> Reply<P> {
    match pointer {
        Some(p) => Reply::Pointer(p),
        None => Reply::Refused,
    }
}

pub fn value_reply<P: PtrKey>(value: Option<u32>) -> Reply<P> {
    match value {
        Some(value) => Reply::Value(value),
        None => Reply::Refused,
    }
}

pub fn count_reply<P: PtrKey>(count: Option<usize>) -> Reply<P> {
    match count {
        Some(n) => Reply::Count(n),
        None => Reply::Refused,
    }
}

pub fn insertion_reply<P: PtrKey>(inserted: Result<P, ChainInsertionError>) -> Reply<P> {
    match inserted {
        Ok(p) => Reply::Pointer(p),
        Err(ChainInsertionError::FailedLinkRequirement) => Reply::Refused,
        Err(ChainInsertionError::AllocError) => Reply::NoMemory,
        Err(_) => Reply::BeyondMaximum,
    }
}

pub fn growth_error<P: PtrKey>(error: ReallocationError) -> Reply<P> {
    match error {
        ReallocationError::AllocError => Reply::NoMemory,
        ReallocationError::BeyondMaxCapacity => Reply::BeyondMaximum,
    }
}

pub fn list_reply<P: PtrKey>(made: Result<Option<ListHandle<P>>, ReallocationError>) -> Reply<P> {
    match made {
        Ok(Some(h)) => Reply::Pointer(h.head),
        Ok(None) => Reply::Refused,
        Err(error) => growth_error(error),
    }
}

pub fn is_refused_memory<P: PtrKey>(reply: Reply<P>) -> bool {
    match reply {
        Reply::NoMemory => true,
        _ => false,
    }
}

fn are_same_replies<P: PtrKey>(reply: Reply<P>, wanted: Reply<P>) -> bool {
    match (reply, wanted) {
        (Reply::Pointer(p), Reply::Pointer(q)) => p.is_same(q),
        (Reply::Value(value), Reply::Value(other)) => value == other,
        (Reply::Count(n), Reply::Count(m)) => n == m,
        (Reply::Done, Reply::Done) => true,
        (Reply::Refused, Reply::Refused) => true,
        (Reply::NotRange, Reply::NotRange) => true,
        _ => false,
    }
}

// Returns the bit of a call that may be refused memory.
pub fn bit_of<P: PtrKey>(call: Call<P>) -> u32 {
    match call {
        Call::NewList => 1,
        Call::Reserve(_) => 2,
        Call::Insert(Goal::Back(_), _) => 4,
        Call::Insert(Goal::Front(_), _) => 8,
        Call::Insert(Goal::After(_), _) => 16,
        Call::Insert(Goal::Before(_), _) => 32,
        _ => 64,
    }
}

// Returns the next of a sequence of pseudorandom numbers, below `n`.
pub fn random(seed: &mut u32, n: usize) -> usize {
    *seed = seed.wrapping_mul(1_664_525).wrapping_add(1_013_904_223);
    let high = (*seed >> 8) as usize;
    if n == 0 { 0 } else { high % n }
}

// Returns one of these pointers, or an invalid one if there is none.
fn random_of<P: PtrKey>(pointers: &[P], seed: &mut u32) -> P {
    match pointers.get(random(seed, pointers.len())) {
        Some(p) => *p,
        None => P::invalid(),
    }
}

// Returns the pointer of an item, and now and then a handle or a stale pointer.
pub fn random_item<P: PtrKey>(model: &Model<P>, seed: &mut u32) -> P {
    let kind = random(seed, 16);
    let position = random(seed, model.items.len());
    match model.items.get(position) {
        Some(e) if kind > 1 => e.p,
        _ if kind == 1 => random_of(model.handles.as_slice(), seed),
        _ => random_of(model.stale.as_slice(), seed),
    }
}

// Returns the handle of a list, and now and then an item or a stale pointer.
pub fn random_handle<P: PtrKey>(model: &Model<P>, seed: &mut u32) -> P {
    match random(seed, 16) {
        0 => random_of(model.stale.as_slice(), seed),
        1 => random_item(model, seed),
        _ => random_of(model.handles.as_slice(), seed),
    }
}

// Returns an item at most five positions behind another one, and now and then any item.
pub fn random_later<P: PtrKey>(model: &Model<P>, p: P, seed: &mut u32) -> P {
    let further = random(seed, 8);
    match place_of(model.items.as_slice(), p) {
        Some((n, _)) if further < 6 => match model.items.get(n.saturating_add(further)) {
            Some(e) => e.p,
            None => p,
        },
        _ => random_item(model, seed),
    }
}

// Returns whether two results are the same pointer, or both are none.
pub fn are_same<P: PtrKey>(found: Option<P>, wanted: Option<P>) -> bool {
    match (found, wanted) {
        (Some(p), Some(q)) => p.is_same(q),
        (None, None) => true,
        _ => false,
    }
}

// Returns the position of a handle, if it is one.
fn place_of_list<P: PtrKey>(handles: &[P], h: P) -> Option<usize> {
    let mut n: usize = 0;
    for g in handles {
        if g.is_same(h) {
            return Some(n);
        }
        n = n.saturating_add(1);
    }
    None
}

// Returns the position of an item, with its list, if it is one.
fn place_of<P: PtrKey>(items: &[Item<P>], p: P) -> Option<(usize, P)> {
    let mut n: usize = 0;
    for e in items {
        if e.p.is_same(p) {
            return Some((n, e.h));
        }
        n = n.saturating_add(1);
    }
    None
}

// Returns the pointer of the first item of a list.
pub fn first_of<P: PtrKey>(items: &[Item<P>], h: P) -> Option<P> {
    for e in items {
        if e.h.is_same(h) {
            return Some(e.p);
        }
    }
    None
}

// Returns whether these pointers are those of the items of a list, in order.
pub fn are_items_of<P: PtrKey>(pointers: &[P], items: &[Item<P>], h: P) -> bool {
    let mut n: usize = 0;
    for e in items {
        if e.h.is_same(h) {
            if !are_same(pointers.get(n).copied(), Some(e.p)) {
                return false;
            }
            n = n.saturating_add(1);
        }
    }
    n == pointers.len()
}

// Inserts an item at a position, or at the end if that is beyond it.
fn put<P: PtrKey>(items: &mut Vec<Item<P>>, at: usize, item: Item<P>) -> Result<(), AllocError> {
    if at >= items.len() {
        items.push(item)?;
    } else {
        items.insert(at, item)?;
    }
    Ok(())
}

// Returns the handle or the item that a goal names.
pub fn pointer_of<P: PtrKey>(goal: Goal<P>) -> P {
    match goal {
        Goal::Front(h) => h,
        Goal::Back(h) => h,
        Goal::After(q) => q,
        Goal::Before(q) => q,
    }
}

// Returns the position and the list of a goal, if it is valid.
fn place_of_goal<P: PtrKey>(model: &Model<P>, goal: Goal<P>) -> Option<(usize, P)> {
    let p = pointer_of(goal);
    let list = place_of_list(model.handles.as_slice(), p);
    match (goal, list, place_of(model.items.as_slice(), p)) {
        (Goal::Front(h), Some(_), _) => Some((0, h)),
        (Goal::Back(h), Some(_), _) => Some((model.items.len(), h)),
        (Goal::After(_), _, Some((n, h))) => Some((n.saturating_add(1), h)),
        (Goal::Before(_), _, place) => place,
        _ => None,
    }
}

// Returns the positions of the items from one to another, and their list, if the one is before the
// other there.
fn range_of<P: PtrKey>(items: &[Item<P>], first: P, last: P) -> Option<((usize, usize), P)> {
    match (place_of(items, first), place_of(items, last)) {
        (Some((n, h)), Some((m, k))) if h.is_same(k) && n <= m => Some(((n, m), h)),
        _ => None,
    }
}

// Returns whether `q` is an item of this range.
fn is_within<P: PtrKey>(items: &[Item<P>], ((from, to), h): ((usize, usize), P), q: P) -> bool {
    match place_of(items, q) {
        Some((n, k)) => h.is_same(k) && from <= n && n <= to,
        None => false,
    }
}

// Returns the range of these items, if the pointer that a goal names is not in it.
fn range_without<P: PtrKey>(
    items: &[Item<P>],
    (first, last): (P, P),
    goal: Goal<P>,
) -> Option<((usize, usize), P)> {
    let range = range_of(items, first, last)?;
    if is_within(items, range, pointer_of(goal)) {
        None
    } else {
        Some(range)
    }
}

// Returns the pointer of the item after another one in its list.
fn next_of<P: PtrKey>(items: &[Item<P>], p: P) -> Option<P> {
    let (place, h) = place_of(items, p)?;
    let mut n: usize = 0;
    for e in items {
        if n > place && e.h.is_same(h) {
            return Some(e.p);
        }
        n = n.saturating_add(1);
    }
    None
}

// Moves an item to a goal that is not beside itself.
fn move_to<P: PtrKey>(model: &mut Model<P>, p: P, goal: Goal<P>) -> Result<(), AllocError> {
    match place_of(model.items.as_slice(), p) {
        Some((n, _)) if n < model.items.len() => {
            let value = model.items.remove(n).value;
            match place_of_goal(&*model, goal) {
                Some((at, h)) => put(&mut model.items, at, Item { p, value, h }),
                None => Ok(()),
            }
        }
        _ => Ok(()),
    }
}

// Moves the items from `first` to `last`, or to the end of their list if `last` is invalid.
fn move_all<P: PtrKey>(
    model: &mut Model<P>,
    (first, last): (P, P),
    goal: Goal<P>,
) -> Result<(), AllocError> {
    let mut p = first;
    let mut to = goal;
    for _ in 0..model.items.len() {
        let next = next_of(model.items.as_slice(), p);
        move_to(model, p, to)?;
        match next {
            Some(q) if !p.is_same(last) => {
                to = Goal::After(p);
                p = q;
            }
            _ => return Ok(()),
        }
    }
    Ok(())
}

// Moves the items from one to another.
fn move_range<P: PtrKey>(
    model: &mut Model<P>,
    range: (P, P),
    goal: Goal<P>,
) -> Result<Reply<P>, AllocError> {
    if range_without(model.items.as_slice(), range, goal).is_none() {
        return Ok(Reply::NotRange);
    }
    if place_of_goal(&*model, goal).is_none() {
        return Ok(Reply::Refused);
    }
    move_all(model, range, goal)?;
    Ok(Reply::Done)
}

// Moves an item.
fn move_one<P: PtrKey>(model: &mut Model<P>, p: P, goal: Goal<P>) -> Result<Reply<P>, AllocError> {
    match move_range(model, (p, p), goal)? {
        Reply::Done => Ok(Reply::Done),
        _ => Ok(Reply::Refused),
    }
}

// Moves the first item of a list to the end of another one.
fn wake_one<P: PtrKey>(model: &mut Model<P>, h: P, k: P) -> Result<Reply<P>, AllocError> {
    let Some(p) = first_of(model.items.as_slice(), h) else {
        return Ok(Reply::Refused);
    };
    match move_one(model, p, Goal::Back(k))? {
        Reply::Done => Ok(Reply::Pointer(p)),
        _ => Ok(Reply::Refused),
    }
}

// Moves all items of the second list behind those of the first.
fn join<P: PtrKey>(model: &mut Model<P>, h: P, k: P) -> Result<Reply<P>, AllocError> {
    let handles = model.handles.as_slice();
    if place_of_list(handles, h).is_none() || place_of_list(handles, k).is_none() || h.is_same(k) {
        return Ok(Reply::Refused);
    }
    if let Some(p) = first_of(model.items.as_slice(), k) {
        move_all(model, (p, P::invalid()), Goal::Back(h))?;
    }
    Ok(Reply::Done)
}

// Moves an item and those behind it into the new list `k`.
fn split<P: PtrKey>(model: &mut Model<P>, p: P, k: P) -> Result<Reply<P>, AllocError> {
    if place_of(model.items.as_slice(), p).is_none() {
        return Ok(Reply::Refused);
    }
    model.handles.push(k)?;
    move_all(model, (p, P::invalid()), Goal::Back(k))?;
    Ok(Reply::Pointer(k))
}

// Inserts an item with the new pointer `p`.
fn insert<P: PtrKey>(
    model: &mut Model<P>,
    goal: Goal<P>,
    value: u32,
    p: P,
) -> Result<Reply<P>, AllocError> {
    let Some((at, h)) = place_of_goal(&*model, goal) else {
        return Ok(Reply::Refused);
    };
    put(&mut model.items, at, Item { p, value, h })?;
    Ok(Reply::Pointer(p))
}

// Replaces a value, and returns the former one.
fn replace<P: PtrKey>(items: &mut [Item<P>], p: P, value: u32) -> Option<u32> {
    for e in items {
        if e.p.is_same(p) {
            let former = e.value;
            e.value = value;
            return Some(former);
        }
    }
    None
}

// Adds a pointer to the stale ones, of which the last 64 are kept.
fn add_stale<P: PtrKey>(stale: &mut Vec<P>, p: P) -> Result<(), AllocError> {
    if stale.len() >= 64 {
        stale.remove(0);
    }
    stale.push(p)?;
    Ok(())
}

// Removes an item, and returns its value.
fn take<P: PtrKey>(model: &mut Model<P>, p: P) -> Result<Reply<P>, AllocError> {
    match place_of(model.items.as_slice(), p) {
        Some((n, _)) if n < model.items.len() => {
            add_stale(&mut model.stale, p)?;
            Ok(Reply::Value(model.items.remove(n).value))
        }
        _ => Ok(Reply::Refused),
    }
}

// Removes the items of a list, and returns how many they were.
fn take_all<P: PtrKey>(model: &mut Model<P>, h: P) -> Result<usize, AllocError> {
    let mut count: usize = 0;
    for _ in 0..model.items.len() {
        let Some(p) = first_of(model.items.as_slice(), h) else {
            return Ok(count);
        };
        take(model, p)?;
        count = count.saturating_add(1);
    }
    Ok(count)
}

// Removes a list and its items, and returns how many they were.
fn drop_list<P: PtrKey>(model: &mut Model<P>, h: P) -> Result<Reply<P>, AllocError> {
    match place_of_list(model.handles.as_slice(), h) {
        Some(place) if place < model.handles.len() => {
            model.handles.swap_remove(place);
            let count = take_all(model, h)?;
            add_stale(&mut model.stale, h)?;
            Ok(Reply::Count(count))
        }
        _ => Ok(Reply::Refused),
    }
}

// Makes a call that moves items.
fn move_items<P: PtrKey>(
    model: &mut Model<P>,
    call: Call<P>,
    new: P,
) -> Result<Reply<P>, AllocError> {
    match call {
        Call::Move(p, goal) => move_one(model, p, goal),
        Call::MoveRange(range, goal) => move_range(model, range, goal),
        Call::Join(h, k) => join(model, h, k),
        Call::Split(p) => split(model, p, new),
        Call::WakeOne(h, k) => wake_one(model, h, k),
        Call::Reserve(n) => Ok(Reply::Count(n)),
        _ => Ok(Reply::Refused),
    }
}

// Makes a call, and returns its reply. `new` is the pointer of what it inserts.
fn make_call<P: PtrKey>(
    model: &mut Model<P>,
    call: Call<P>,
    new: P,
) -> Result<Reply<P>, AllocError> {
    match call {
        Call::NewList => {
            model.handles.push(new)?;
            Ok(Reply::Pointer(new))
        }
        Call::Insert(goal, value) => insert(model, goal, value, new),
        Call::Replace(p, value) | Call::Write(p, value) => {
            Ok(value_reply(replace(model.items.as_mut_slice(), p, value)))
        }
        Call::Remove(p) => take(model, p),
        Call::RemoveList(h) => drop_list(model, h),
        _ => move_items(model, call, new),
    }
}

// Returns the pointer of a reply, or an invalid one.
fn pointer_in<P: PtrKey>(reply: &Reply<P>) -> P {
    match reply {
        Reply::Pointer(p) => *p,
        _ => P::invalid(),
    }
}

// Makes a call, and returns whether this is its reply.
pub fn is_reply<P: PtrKey>(
    model: &mut Model<P>,
    call: Call<P>,
    reply: Reply<P>,
) -> Result<bool, AllocError> {
    let new = pointer_in(&reply);
    Ok(are_same_replies(reply, make_call(model, call, new)?))
}

// Returns a seed and the number of a call after which there is a difference as one number: the seed
// from 1 on times 1_000, and the call. Memory that is lacking counts as call 999.
pub fn failure_at(seed: u32, difference: Result<u32, AllocError>) -> u32 {
    let thousands = seed.saturating_add(1).saturating_mul(1_000);
    match difference {
        Ok(call) => thousands.saturating_add(call),
        Err(_) => thousands.saturating_add(999),
    }
}
