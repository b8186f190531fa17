use arena_ptr::{PtrKey, ReallocationError};
use chain_arena::{Call, Reply};

/// A call on two chain arenas.
#[derive(Drop)]
pub enum PairCall<P: PtrKey, T> {
    First(Call<P, T>),
    Second(Call<P, T>),
    /// Moves the chain of a pointer to the second arena.
    TransferToSecond(P),
    /// Moves the chain of a pointer to the first arena.
    TransferToFirst(P),
}

/// The reply to a call.
#[derive(Drop)]
pub enum PairReply<P: PtrKey, T> {
    Replied(Reply<P, T>),
    /// The new pointer, `None` for an invalid one, or the error.
    Transferred(Result<Option<P>, ReallocationError>),
}
