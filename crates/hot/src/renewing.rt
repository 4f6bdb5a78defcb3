//! Asking for what a change touches.
ghost use Rattle.std.specs.Prelude.{◌≡◌, ℕ, [], IfOk, OnErr};
ghost use Rattle.region.specs.Tables.{row_of};
ghost use Rattle.region.specs.Sets.{IsWhole};
ghost use Rattle.facts.specs.Telling.{IsLater};
ghost use Rattle.hot.specs.inside.Passing.{WerePassed};
ghost use Rattle.hot.specs.inside.Remembering.{MayRecall, IsRenewed};

use crate::nodes::CountedNodes;
use crate::recalling::{Harvest, gathered};
use crate::remembering::remember;
use facts::Numbers;
use idsets::IdSet;
use region::{Sets, Told, fill};
use std::alloc::{AllocError, Global};
use std::collections::BTreeMap;

/// Refreshes what is kept by what is remembered, and by what is told of other nodes, and says of whom it was, in order. For want
/// of memory what is kept and remembered is what it was, and more nodes and users may have numbers.
pub(crate) fn renew<F: CountedNodes>(
    alloc: Global,
    facts: &mut F,
    numbers: &mut Numbers,
    sets: &mut Sets,
    told: &mut BTreeMap<u64, Told>,
    roots: &IdSet,
    turned: &[u64],
    changed: &[u64],
) -> Result<Vec<u64>, AllocError>
    requires { IsWhole sets.old }
    ensures snap { F.snap facts.new ≡ F.snap facts.old }
    ensures whole { IsWhole sets.new }
    ensures later { IsLater numbers.old.nodes numbers.new.nodes numbers.old.users numbers.new.users }
    ensures err { OnErr result ((n : ℕ) → row_of sets.new.rows n ≡ row_of sets.old.rows n) }
    ensures err_told { OnErr result (told.new ≡ told.old) }
    ensures renewed { IfOk result (λ asked. IsRenewed (MayRecall (F.snap facts.old) told.old numbers.new.nodes numbers.new.users)
        sets.old.rows sets.new.rows roots.now turned.now changed.now [] asked.items told.old told.new) }
    ensures passed { IfOk result (λ asked. WerePassed numbers.new.nodes [] asked.items (F.asked facts.old) (F.asked facts.new)) }
{
    let Harvest { region, asked } = gathered(
        alloc, facts, numbers, told, sets, roots, turned, changed,
    )?;
    fill(alloc, sets, &region)?;
    remember(told, sets, region);
    Ok(asked)
}
