//! Laws of joins and lone links.

ghost use Rattle.chain_laws.specs.Joins.{JoinAgrees, JoinAddsAPair, JoinConnects, JoinIsDetermined, LoneAgrees, LoneAdds, LoneIsDetermined, ChainsDecide, PairsDecide};

/// Joins keep links well linked.
pub fn join_agrees()
    ensures { JoinAgrees }
{}

/// A join adds exactly its neighbor pair.
pub fn join_adds_a_pair()
    ensures { JoinAddsAPair }
{}

/// A join concatenates two chains or closes one.
pub fn join_connects()
    ensures { JoinConnects }
{}

/// `Connects` determines a join.
pub fn join_is_determined()
    ensures { JoinIsDetermined }
{}

/// New lone links keep links well linked.
pub fn lone_agrees()
    ensures { LoneAgrees }
{}

/// A new lone link is a new chain.
pub fn lone_adds()
    ensures { LoneAdds }
{}

/// `AddsLone` determines the chains.
pub fn lone_is_determined()
    ensures { LoneIsDetermined }
{}

/// Well-linked arenas of the same chains are equal.
pub fn chains_decide()
    ensures { ChainsDecide }
{}

/// Well-linked arenas of the same links and pairs are equal.
pub fn pairs_decide()
    ensures { PairsDecide }
{}
