//! Laws of removals.

ghost use Rattle.chain_laws.specs.Removals.{RemovalAgrees, RemovalRelinks, RemovalInPairs, RemovalIsDetermined, RemovalLeavesEachWithout, RemovalIsDeterminedByPairs, RemovalOfLoneRestores};

/// Removals keep links well linked.
pub fn removal_agrees()
    ensures { RemovalAgrees }
{}

/// An index leaves its chain, gone if empty.
pub fn removal_relinks()
    ensures { RemovalRelinks }
{}

/// A removal pairs the links beside the index.
pub fn removal_in_pairs()
    ensures { RemovalInPairs }
{}

/// `Removes`, or well-linked `RemovesPairs`, determines a removal.
pub fn removal_is_determined()
    ensures by_chains { RemovalIsDetermined }
    ensures each { RemovalLeavesEachWithout }
    ensures by_pairs { RemovalIsDeterminedByPairs }
{}

/// Removing a lone link just added undoes that.
pub fn removal_of_lone_restores()
    ensures { RemovalOfLoneRestores }
{}
