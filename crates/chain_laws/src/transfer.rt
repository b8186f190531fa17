//! Laws of transfers of chains.

ghost use Rattle.chain_laws.specs.ChainStart.{WalkBackBegins, WalkBackContinues, WalkBackEnds, WalkBackIsCyclic, WalkBackIsShort, WalkOnBegins, WalkOnContinues, WalksMeet, LeastIsNext};
ghost use Rattle.chain_laws.specs.Transfer.{FirstIsTaken, LastIsAppended};

/// Following `prev` finds the start, or returns, in fewer steps than links.
pub fn walk_back_finds_the_start()
    ensures begins { WalkBackBegins }
    ensures continues { WalkBackContinues }
    ensures ends { WalkBackEnds }
    ensures is_cyclic { WalkBackIsCyclic }
    ensures is_short { WalkBackIsShort }
{}

/// Walks back and on from a link meet only in a cycle.
pub fn walks_meet_in_a_cycle()
    ensures begins { WalkOnBegins }
    ensures continues { WalkOnContinues }
    ensures meet { WalksMeet }
{}

/// The chain of the least index is next.
pub fn least_is_next()
    ensures { LeastIsNext }
{}

/// Removing its first link leaves a chain's rest.
pub fn first_is_taken()
    ensures { FirstIsTaken }
{}

/// A new link at the last end extends its run.
pub fn last_is_appended()
    ensures { LastIsAppended }
{}
