//! Laws of renamings.

ghost use Rattle.chain_laws.specs.Renamings.{RenamingLaws};
ghost use Rattle.chain_laws.specs.Arrangements.{ArrangementNumbers, PlacesAreApart, CanonicalArranges, PlacesChainsInRuns, RunsAreRenumbered, LeastIndexOrderLaws};
ghost use Rattle.chain_laws.specs.Moves.{MoveRenames, NeighborsDetermineAMove, RenamingsCompose, GatheringLaws};

/// A renaming carries pairs and chains, and is determined.
pub fn renaming_carries()
    ensures { RenamingLaws }
{}

/// A list of all links moves its k-th to k.
pub fn arrangement_numbers()
    ensures { ArrangementNumbers × PlacesAreApart }
{}

/// Exactly the renumbering by the chains gives their runs.
pub fn canonical_places_chains_in_runs()
    ensures { CanonicalArranges × PlacesChainsInRuns × RunsAreRenumbered }
{}

/// A well-linked arena has one least-index order, canonical and idempotent.
pub fn least_index_order()
    ensures { LeastIndexOrderLaws }
{}

/// A move is a renaming that rewrites only neighbors; renamings compose.
pub fn move_renames()
    ensures { MoveRenames × NeighborsDetermineAMove × RenamingsCompose }
{}

/// Moving links, by index, to 1 on renumbers them in order.
pub fn gathering_renumbers()
    ensures { GatheringLaws }
{}
