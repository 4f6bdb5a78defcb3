//! The groups of an expression, wherever its sets come from.
ghost use Rattle.std.specs.Prelude.{◌≡◌, true, false, IfOk};
ghost use Rattle.meaning.specs.Snap.{Snap};
ghost use Rattle.leopard.specs.Causes.{names_unindexed, some_name_unindexed};
ghost use Rattle.leopard.specs.Exprs.{query_of, part_queries};
ghost use Rattle.leopard.specs.Finding.{AreFound};
ghost use Rattle.leopard.specs.Groups.{Means, SomeMeans, EachMeans};
ghost use Rattle.leopard.specs.Query.{has_parts, all_have_parts, is_some};

use crate::Expr;
use crate::found::{Found, lessened, met, nothing, united};
use crate::source::GroupSets;
use std::alloc::{AllocError, Global};

/// The groups of an expression of which each union and intersection has a part. The sets are gone over once for each
/// place where they stand in it.
#[cycle(finding)]
pub fn found_of<T: GroupSets>(alloc: Global, sets: &T, expr: &Expr) -> Result<Found, AllocError>
    requires { has_parts (query_of expr.now) ≡ true }
    ensures { IfOk result (λ f. (S : Snap) → T.tells sets.now S → names_unindexed S.config (query_of expr.now) ≡ false
        → AreFound (T.names sets.now) (Means S (query_of expr.now)) f.ids f.others.keys) }
{
    match expr {
        Expr::Member2Group(user) => sets.direct(alloc, user),
        Expr::Group2Group(group) => sets.closure(alloc, group),
        Expr::Union(parts) => found_in_some(alloc, sets, parts),
        Expr::Intersection(parts) => found_in_each(alloc, sets, parts),
        Expr::Exclusion(base, less) => {
            let base = found_of(alloc, sets, base)?;
            let less = found_of(alloc, sets, less)?;
            lessened(alloc, base, &less)
        }
    }
}

/// The groups of some part.
#[cycle(finding)]
fn found_in_some<T: GroupSets>(alloc: Global, sets: &T, parts: &[Expr]) -> Result<Found, AllocError>
    requires { all_have_parts (part_queries parts.now) ≡ true }
    ensures { IfOk result (λ f. (S : Snap) → T.tells sets.now S → some_name_unindexed S.config (part_queries parts.now) ≡ false
        → AreFound (T.names sets.now) (SomeMeans S (part_queries parts.now)) f.ids f.others.keys) }
{
    let mut found = nothing(alloc);
    for part in parts {
        let more = found_of(alloc, sets, part)?;
        found = united(alloc, found, more)?;
    }
    Ok(found)
}

/// The groups of each part.
#[cycle(finding)]
fn found_in_each<T: GroupSets>(alloc: Global, sets: &T, parts: &[Expr]) -> Result<Found, AllocError>
    requires some { is_some (part_queries parts.now) ≡ true }
    requires parts { all_have_parts (part_queries parts.now) ≡ true }
    ensures { IfOk result (λ f. (S : Snap) → T.tells sets.now S → some_name_unindexed S.config (part_queries parts.now) ≡ false
        → AreFound (T.names sets.now) (EachMeans S (part_queries parts.now)) f.ids f.others.keys) }
{
    let Some((first, others)) = parts.split_first() else {
        return Ok(nothing(alloc));
    };
    let mut found = found_of(alloc, sets, first)?;
    for part in others {
        let more = found_of(alloc, sets, part)?;
        found = met(alloc, found, &more)?;
    }
    Ok(found)
}
