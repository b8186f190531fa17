//! Laws of insertions.

ghost use Rattle.chain_laws.specs.Insertions.{KindGivesAPosition, InsertionAgrees, InsertionInPairs, InsertionInserts, InsertionGrowsTheChain, InsertionIsDetermined, InsertionIsDeterminedByPairs, RemovalOfInsertedRestores};

/// A kind that may be inserted gives a position.
pub fn kind_gives_a_position<P, I>()
    ensures { KindGivesAPosition P I }
{}

/// Insertions keep links well linked.
pub fn insertion_agrees()
    ensures { InsertionAgrees }
{}

/// An insertion replaces the pair at its position, if any.
pub fn insertion_in_pairs()
    ensures { InsertionInPairs }
{}

/// An insertion extends, bridges, closes or adds a chain.
pub fn insertion_inserts()
    ensures { InsertionInserts }
{}

/// The chain beside a new link gains exactly that.
pub fn insertion_grows_the_chain()
    ensures { InsertionGrowsTheChain }
{}

/// `Inserts`, or well-linked `InsertsPairs`, determines an insertion.
pub fn insertion_is_determined()
    ensures by_chains { InsertionIsDetermined }
    ensures by_pairs { InsertionIsDeterminedByPairs }
{}

/// Removing a link just inserted beside another undoes that.
pub fn removal_of_inserted_restores()
    ensures { RemovalOfInsertedRestores }
{}
