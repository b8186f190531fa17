//! Laws of cuts.

ghost use Rattle.chain_laws.specs.Cuts.{CutAgrees, CutTakesAPair, CutPartsChains, CutIsDetermined, CutIsDeterminedByPairs, JoinOfCutRestores, CutOfJoinRestores};

/// Cuts keep links well linked.
pub fn cut_agrees()
    ensures { CutAgrees }
{}

/// A cut removes exactly its neighbor pair.
pub fn cut_takes_a_pair()
    ensures { CutTakesAPair }
{}

/// A cut splits a linear or opens a cyclic chain.
pub fn cut_parts_chains()
    ensures { CutPartsChains }
{}

/// `Cuts`, or well-linked `TakesPair`, determines a cut.
pub fn cut_is_determined()
    ensures by_chains { CutIsDetermined }
    ensures by_pairs { CutIsDeterminedByPairs }
{}

/// A cut and a join undo each other.
pub fn cut_and_join_restore()
    ensures join_of_cut { JoinOfCutRestores }
    ensures cut_of_join { CutOfJoinRestores }
{}
