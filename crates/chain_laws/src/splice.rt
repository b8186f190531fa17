//! Laws of moves of a run.

ghost use Rattle.chain_laws.specs.Splices.{SpliceAgrees, SpliceSplices, SpliceBackRestores};

/// Moves of a run keep links well linked.
pub fn splice_agrees()
    ensures { SpliceAgrees }
{}

/// A run leaves its chain and comes after another link.
pub fn splice_splices()
    ensures { SpliceSplices }
{}

/// A run moved there and back changes nothing.
pub fn splice_back_restores()
    ensures { SpliceBackRestores }
{}
