//! Laws of reversals.

ghost use Rattle.chain_laws.specs.Reversals.{ReversalAgrees, ReversalReverses, ReversalTwiceRestores};

/// Reversals keep links well linked.
pub fn reversal_agrees()
    ensures { ReversalAgrees }
{}

/// Turning the links of a walk reverses their chain.
pub fn reversal_reverses()
    ensures { ReversalReverses }
{}

/// A chain reversed twice, from any links, stays.
pub fn reversal_twice_restores()
    ensures { ReversalTwiceRestores }
{}
