//! Laws of walks back.

ghost use Rattle.chain_laws.specs.WalksBack.{WalksBackAhead, HasNoOtherWalkBack, BackPassesEachOnce, BackPassesTheChain, CyclicWalkBackIsReversed};

/// A walker passes a walk back.
pub fn walker_passes_the_walk_back()
    ensures { WalksBackAhead }
{}

/// A link has only one walk back.
pub fn one_walk_back()
    ensures { HasNoOtherWalkBack }
{}

/// A walk back passes no link twice.
pub fn walk_back_passes_each_once()
    ensures { BackPassesEachOnce }
{}

/// A walk back passes exactly its chain.
pub fn walk_back_passes_the_chain()
    ensures { BackPassesTheChain }
{}

/// In a cycle, a walk back is its link, then the walk reversed.
pub fn cyclic_walk_back_is_reversed()
    ensures { CyclicWalkBackIsReversed }
{}
