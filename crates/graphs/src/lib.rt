//! The graph of nodes that a snapshot makes, and that its least sets are the memberships. The definitions stand in
//! `specs/`. Here is no code: the public functions carry the laws.
#![tactic(auto)]

ghost use Rattle.graphs.specs.Graph.{LeastIsMembership};
ghost use Rattle.graphs.specs.Groups.{LeastIsClosure};

/// Who is kept of a node, where what is kept is the least sets of the snapshot's graph, is who is a member of it.
pub fn least_is_membership()
    ensures { LeastIsMembership }
{}

/// Which groups are kept of a group, where what is kept is the least sets over the arcs of the snapshot's groups, is
/// the group closure: the groups to which walks lead.
pub fn least_is_closure()
    ensures { LeastIsClosure }
{}
