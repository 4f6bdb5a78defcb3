//! Sets of groups on the way to an answer.
ghost use Rattle.std.specs.Prelude.{◌≡◌, ℕ, ◌&&◌, ◌⊎◌, ◌↔◌, [], List, IfOk};
ghost use Rattle.names.specs.declared.node.Node.{Node};
ghost use Rattle.idsets.specs.Sets.{has};
ghost use Rattle.leopard.specs.Finding.{Finds, AreUnnamed, AreApart};

use crate::sets::{common, put_all, without};
use idsets::{Galloping, IdSet, exclude, intersect, union};
use names::Node;
use std::alloc::{AllocError, Global};
use std::collections::BTreeSet;

/// Groups: by their ids, and those that have none.
#[derive(Drop)]
pub struct Found {
    pub ids: IdSet,
    pub others: BTreeSet<Node>,
}

/// No group.
pub(crate) fn nothing(alloc: Global) -> Found
    ensures none { (names : List Node) (n : Node) → ¬ (Finds names result.ids result.others.keys n) }
    ensures unnamed { (names : List Node) → AreUnnamed names result.others.keys }
{
    Found {
        ids: IdSet::new(alloc),
        others: BTreeSet::new(alloc),
    }
}

/// Groups of which none has an id. It takes no memory.
pub(crate) fn unnamed(alloc: Global, others: BTreeSet<Node>) -> Found
    ensures ids { result.ids ≡ [] }
    ensures others { result.others ≡ others }
{
    Found {
        ids: IdSet::new(alloc),
        others,
    }
}

/// The groups of either.
pub(crate) fn united(alloc: Global, a: Found, b: Found) -> Result<Found, AllocError>
    ensures either { IfOk result (λ f. (names : List Node) (n : Node)
        → Finds names f.ids f.others.keys n ↔ (Finds names a.ids a.others.keys n ⊎ Finds names b.ids b.others.keys n)) }
    ensures unnamed { IfOk result (λ f. (names : List Node) → AreUnnamed names a.others.keys → AreUnnamed names b.others.keys
        → AreUnnamed names f.others.keys) }
{
    let ids = union(alloc, &a.ids, &b.ids)?;
    let mut others = a.others;
    put_all(&mut others, b.others)?;
    Ok(Found { ids, others })
}

/// The ids of both. The smaller set is gone over, and the other searched.
fn common_ids(alloc: Global, a: &IdSet, b: &IdSet) -> Result<IdSet, AllocError>
    ensures { IfOk result (λ ids. (id : ℕ) → has ids id ≡ (has a.now id && has b.now id)) }
{
    if a.len() <= b.len() {
        intersect(alloc, a, &mut Galloping::new(b))
    } else {
        intersect(alloc, b, &mut Galloping::new(a))
    }
}

/// The groups of both.
pub(crate) fn met(alloc: Global, a: Found, b: &Found) -> Result<Found, AllocError>
    ensures both { IfOk result (λ f. (names : List Node) (n : Node) → AreApart names a.others.keys b.now.others.keys
        → Finds names f.ids f.others.keys n ↔ (Finds names a.ids a.others.keys n × Finds names b.now.ids b.now.others.keys n)) }
    ensures unnamed { IfOk result (λ f. (names : List Node) → AreUnnamed names a.others.keys → AreUnnamed names f.others.keys) }
{
    let ids = common_ids(alloc, &a.ids, &b.ids)?;
    let others = common(a.others, &b.others);
    Ok(Found { ids, others })
}

/// The groups of the first that the second lacks.
pub(crate) fn lessened(alloc: Global, a: Found, b: &Found) -> Result<Found, AllocError>
    ensures less { IfOk result (λ f. (names : List Node) (n : Node) → AreApart names a.others.keys b.now.others.keys
        → Finds names f.ids f.others.keys n ↔ (Finds names a.ids a.others.keys n × ¬ (Finds names b.now.ids b.now.others.keys n))) }
    ensures unnamed { IfOk result (λ f. (names : List Node) → AreUnnamed names a.others.keys → AreUnnamed names f.others.keys) }
{
    let ids = exclude(alloc, &a.ids, &b.ids)?;
    let others = without(a.others, &b.others);
    Ok(Found { ids, others })
}
