//! What it means to keep the members of some nodes: rules over nodes, the least sets that they give, a user at
//! a time, and walks along the nodes that they name. The definitions stand in `specs/`, as plain data of the
//! logic over numbers; the crates above cite them. Here is no code: the public functions carry the laws.
#![tactic(auto)]

ghost use Rattle.least_sets.specs.Least.{RefreshIsLeast, LeastIsOne, LeastIsInAll, LeastByLevels, LeastIsOneOver, LeastIsLeastWithin};
ghost use Rattle.least_sets.specs.Groups.{GroupsAreWalks};

/// After a change the least sets are those of the touched nodes, solved over what the untouched ones held before.
/// It is why a refresh need not look at what no change touches.
pub fn refresh_is_least()
    ensures { RefreshIsLeast }
{}

/// Where facts are levelled, there is one least set.
pub fn least_is_one()
    ensures { LeastIsOne }
{}

/// The least set is in every closed one.
pub fn least_is_in_all()
    ensures { LeastIsInAll }
{}

/// Level by level the least set is in every closed one that has what it has at the lower levels.
pub fn least_by_levels()
    ensures { LeastByLevels }
{}

/// The members of groups that name groups are what walks lead to.
pub fn groups_are_walks()
    ensures { GroupsAreWalks }
{}

/// Two least sets that agree on the nodes outside agree inside. An evaluator with an oracle rests on it.
pub fn least_is_one_over()
    ensures { LeastIsOneOver }
{}

/// A least set is least on each smaller part, over what it has elsewhere.
pub fn least_is_least_within()
    ensures { LeastIsLeastWithin }
{}
