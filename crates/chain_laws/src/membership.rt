//! Laws of membership.

ghost use Rattle.chain_laws.specs.Members.{MembersAreLinks, FreeIsInNoChain, MembersOccurOnce};
ghost use Rattle.chain_laws.specs.Members.{MemberNeighborLaws, SharedMemberLaws, ListMemberLaws, DistinctItemLaws, DistinctLinksFit};

/// Each index of a chain has a link, once.
pub fn members_are_links()
    ensures { MembersAreLinks × FreeIsInNoChain × MembersOccurOnce }
{}

/// A chain's link names exactly its neighbors there.
pub fn members_name_neighbors()
    ensures { MemberNeighborLaws }
{}

/// Neighbors share a chain; rotations, and chains that share a link, share all.
pub fn neighbors_share_a_chain()
    ensures { SharedMemberLaws }
{}

/// What a list has, by its parts.
pub fn lists_have()
    ensures { ListMemberLaws }
{}

/// When a list is distinct, by its parts.
pub fn lists_have_once()
    ensures { DistinctItemLaws }
{}

/// Distinct links are at most as many as all links.
pub fn distinct_links_fit()
    ensures { DistinctLinksFit }
{}
