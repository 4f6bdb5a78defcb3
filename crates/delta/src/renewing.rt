//! What is kept is refreshed, and what it was is noted.
ghost use Rattle.std.specs.Prelude.{◌≡◌, ◌||◌, ◌⊎◌, ℕ, List, [], true, false, IfOk, OnOk, OnErr};
ghost use Rattle.std.specs.List.Sorted.{IsStrictlyIncreasing};
ghost use Rattle.least_sets.specs.World.{has};
ghost use Rattle.least_sets.specs.Groups.{groups};
ghost use Rattle.region.specs.Tables.{arcs_or_none, kept, row_of};
ghost use Rattle.region.specs.Sets.{IsWhole};
ghost use Rattle.region.specs.Refreshed.{IsRefreshed};
ghost use Rattle.delta.specs.Noted.{IsNoted};
ghost use Rattle.delta.specs.Telling.{IsMore, MayTell};
ghost use Rattle.delta.specs.inside.Handing.{WereOf};

use crate::arcs::CountedArcs;
use crate::earlier::{Earlier, leave_changed, noted};
use crate::recalling::{Gathering, gathered};
use idsets::{IdSet, Ids};
use names::Node;
use region::{Sets, fill};
use std::alloc::{AllocError, Global};

/// Refreshes what is kept by what is told of the changed groups and of new ones, and notes with a revision what was kept
/// before of what leads elsewhere then. For want of memory what is kept and noted is what it was, and more nodes may have
/// numbers. What takes memory comes before what is kept changes.
pub(crate) fn renew<A: CountedArcs>(
    alloc: Global,
    arcs: &mut A,
    rev: u64,
    nodes: &mut Ids<Node>,
    sets: &mut Sets,
    earlier: &mut Vec<Earlier>,
    roots: &IdSet,
    turned: &[u64],
    changed: &IdSet,
) -> Result<(), AllocError>
    requires { IsWhole sets.old }
    ensures snap { A.snap arcs.new ≡ A.snap arcs.old }
    ensures whole { IsWhole sets.new }
    ensures more { IsMore nodes.old nodes.new }
    ensures err { OnErr result ((n : ℕ) → row_of sets.new.rows n ≡ row_of sets.old.rows n) }
    ensures err_noted { OnErr result (earlier.new.items ≡ earlier.old.items) }
    ensures refreshed { OnOk result ((asked : List ℕ) × IsRefreshed (λ n fact. MayTell (A.snap arcs.old) nodes.new n fact
        ⊎ ((kept sets.old.rows n ≡ true) × (has changed.now n ≡ false) × (fact ≡ groups (λ _. arcs_or_none (row_of sets.old.rows n)) n)))
        sets.old.rows sets.new.rows roots.now turned.now changed.now [] asked
        × WereOf nodes.new sets.old.rows changed.now [] asked (A.asked arcs.old) (A.asked arcs.new)) }
    ensures noted { OnOk result (IsNoted rev sets.old.rows sets.new.rows earlier.old.items earlier.new.items) }
{
    let Gathering { region, asked } = gathered(alloc, arcs, nodes, sets, roots, turned, changed)?;
    let touched = touched_in(&asked, &region.dropped)?;
    let mut before = noted(alloc, rev, sets, touched.as_slice())?;
    earlier.reserve(before.len())?;
    fill(alloc, sets, &region)?;
    leave_changed(&mut before, sets);
    // There is room for these.
    earlier.append(&mut before)?;
    Ok(())
}

// The nodes of two lists, each once.
fn touched_in(asked: &Vec<u64>, dropped: &[u64]) -> Result<IdSet, AllocError>
    ensures all { IfOk result (λ ids. (i : ℕ) → has ids i ≡ (has asked.now.items i || has dropped.now i)) }
    ensures ascending { IfOk result (λ ids. IsStrictlyIncreasing ids) }
{
    let mut both = asked.clone()?;
    both.extend_from_slice(dropped)?;
    Ok(IdSet::of(both))
}
