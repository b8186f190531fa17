//! Laws of unchanged chains.

ghost use Rattle.chain_laws.specs.Frame.{SameLinksKeepAChain, InsertionKeepsOthers, InsertionMakesNoOthers, LoneKeepsEach};
ghost use Rattle.chain_laws.specs.Frame.{CutKeepsOthers, JoinMakesNoOthers, RemovalMakesNoOthers};

/// Unchanged links keep their chain.
pub fn same_links_keep_a_chain()
    ensures { SameLinksKeepAChain }
{}

/// An insertion keeps chains without the links named, and makes none without the new link.
pub fn insertion_keeps_others<P, I>()
    ensures kept { InsertionKeepsOthers P I }
    ensures no_others { InsertionMakesNoOthers }
    ensures lone { LoneKeepsEach }
{}

/// A cut keeps, and a join makes no, chain without one of its links.
pub fn cut_and_join_keep_others()
    ensures cut { CutKeepsOthers }
    ensures joined { JoinMakesNoOthers }
{}

/// A removal makes no chain without the links that its link names.
pub fn removal_makes_no_others()
    ensures { RemovalMakesNoOthers }
{}
