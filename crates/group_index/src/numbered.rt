//! Groups by their numbers, as far as they have one.
ghost use Rattle.std.specs.Prelude.{◌≡◌, ◌++◌, ◌∷◌, ◌⊎◌, ◌↔◌, [], ℕ, List, Contains, IfOk, OnOk};
ghost use Rattle.names.specs.declared.node.Node.{Node as NodeValue};
ghost use Rattle.leopard.specs.Finding.{IsNamedBy, Finds, AreUnnamed, AreFound};

use idsets::{IdSet, Ids};
use leopard::Found;
use names::Node;
use std::alloc::{AllocError, Global};
use std::collections::BTreeSet;

/// Some groups, by the numbers that they have in a table; the others by themselves.
pub(crate) fn found_among(
    alloc: Global,
    names: &Ids<Node>,
    groups: &[Node],
) -> Result<Found, AllocError>
    ensures { IfOk result (λ f. AreFound names.now (Contains groups.now) f.ids f.others.keys) }
{
    let mut ids = Vec::new(alloc);
    let mut others = BTreeSet::new(alloc);
    for group in groups {
        put(names, &mut ids, &mut others, group)?;
    }
    let ids = IdSet::of(ids);
    Ok(Found { ids, others })
}

/// The same of the groups with some numbers of another table.
pub(crate) fn found_named(
    alloc: Global,
    names: &Ids<Node>,
    table: &Ids<Node>,
    numbers: &[u64],
) -> Result<Found, AllocError>
    ensures { IfOk result (λ f. AreFound names.now (IsNamedBy table.now numbers.now) f.ids f.others.keys) }
{
    let mut ids = Vec::new(alloc);
    let mut others = BTreeSet::new(alloc);
    for number in numbers {
        put_named(names, &mut ids, &mut others, table, *number)?;
    }
    let ids = IdSet::of(ids);
    Ok(Found { ids, others })
}

/// Puts in the group with a number of the other table, where there is one.
fn put_named(
    names: &Ids<Node>,
    ids: &mut Vec<u64>,
    others: &mut BTreeSet<Node>,
    table: &Ids<Node>,
    number: u64,
) -> Result<(), AllocError>
    ensures { OnOk result ((before : List ℕ) → AreFound names.now (IsNamedBy table.now before) ids.old.items others.old.keys
        → AreFound names.now (IsNamedBy table.now (before ++ number ∷ [])) ids.new.items others.new.keys) }
{
    match table.name(number) {
        Some(group) => put(names, ids, others, group),
        None => Ok(()),
    }
}

/// Puts in a group.
fn put(
    names: &Ids<Node>,
    ids: &mut Vec<u64>,
    others: &mut BTreeSet<Node>,
    group: &Node,
) -> Result<(), AllocError>
    ensures more { OnOk result ((n : NodeValue) → Finds names.now ids.new.items others.new.keys n
        ↔ (Finds names.now ids.old.items others.old.keys n ⊎ (n ≡ group.now))) }
    ensures unnamed { OnOk result (AreUnnamed names.now others.old.keys → AreUnnamed names.now others.new.keys) }
{
    match names.id_of(group) {
        Some(id) => {
            ids.push(id)?;
            Ok(())
        }
        None => {
            let copy = group.clone()?;
            others.insert(copy)?;
            Ok(())
        }
    }
}
