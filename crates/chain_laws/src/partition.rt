//! Laws of an arena's chains.
ghost use Rattle.chain_laws.specs.Neighbors.{HasChains, HasNoOtherChains, AreByNeighbors, IsWellLinkedByPairs, IsWellLinkedByChains};
ghost use Rattle.chain_laws.specs.Neighbors.{HasChainOfEach, HasNoOtherOfEach, AreSameInAnyOrder, AreRotationsInAnyOrder, RotationsAreChains, SharesOnlyRotations};

/// A well-linked arena has exactly one ordered list of chains.
pub fn one_set_of_chains()
    ensures { HasChains × HasNoOtherChains }
{}

/// Items and neighbor pairs define the same chains.
pub fn chains_by_neighbors()
    ensures { AreByNeighbors }
{}

/// An arena with chains is well linked.
pub fn agreement_from_chains()
    ensures { IsWellLinkedByPairs × IsWellLinkedByChains }
{}

/// Each valid index of a well-linked arena has one chain.
pub fn one_chain_each()
    ensures { HasChainOfEach × HasNoOtherOfEach }
{}

/// All lists of an arena's chains are equal up to rotation.
pub fn same_chains_in_any_order()
    ensures { AreSameInAnyOrder × AreRotationsInAnyOrder }
{}

/// Rotations are chains; chains that share an index are rotations.
pub fn cycles_rotate()
    ensures { RotationsAreChains × SharesOnlyRotations }
{}
