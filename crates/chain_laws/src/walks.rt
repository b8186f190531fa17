//! Laws of walks.

ghost use Rattle.chain_laws.specs.Walks.{WalksAhead, StepsPass, HasNoOtherWalk, PassesEachOnce, PassesTheChain, RemovalLeavesTheWalk, WalkIsTaken};

/// A walker passes a walk.
pub fn walker_passes_the_walk()
    ensures { WalksAhead }
{}

/// A walker passes what its steps pass.
pub fn walker_moves_by_steps()
    ensures { StepsPass }
{}

/// A link has only one walk.
pub fn one_walk()
    ensures { HasNoOtherWalk }
{}

/// A walk passes no link twice.
pub fn walk_passes_each_once()
    ensures { PassesEachOnce }
{}

/// A walk passes exactly its chain.
pub fn walk_passes_the_chain()
    ensures { PassesTheChain }
{}

/// A walk without its first link starts at the next, else the previous.
pub fn removal_leaves_the_walk()
    ensures { RemovalLeavesTheWalk }
{}

/// Removing the links of a walk leaves exactly the other chains.
pub fn walk_is_taken()
    ensures { WalkIsTaken }
{}
