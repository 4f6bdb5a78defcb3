//! Refreshing what is kept, in its place.
ghost use Rattle.std.specs.Prelude.{◌≡◌, ℕ, true, false, List, ◌⊎◌, IfOk, OnOk, OnErr};
ghost use Rattle.least_sets.specs.World.{Fact, has};
ghost use Rattle.least_sets.specs.Least.{IsLevelled};
ghost use Rattle.least_sets.specs.Walks.{IsReached};
ghost use Rattle.region.specs.Tables.{kept, row_of, arc_in};
ghost use Rattle.region.specs.Sets.{IsHeld, IsWhole};
ghost use Rattle.region.specs.Steps.{is_told, InEachTold};
ghost use Rattle.region.specs.Gathered.{IsGathered, WasGathered, IsTurned, IsSameElsewhere, IsAskedFew, IsAskedSome, in_region, stays};
ghost use Rattle.region.specs.Refreshed.{IsRefreshed};

use crate::filling::{add_back_all, drop_rows, put_rows, ready_for, take_places};
use crate::found::Found;
use crate::gathering::{Facts, Region, gather};
use crate::sets::Sets;
use crate::solve::solve;
use crate::sweeping::unreached;
use idsets::IdSet;
use std::alloc::{AllocError, Global};

/// Puts what was gathered in its place: the least sets after the change. It asks nobody, and takes its room before
/// anything changes.
pub fn fill(alloc: Global, sets: &mut Sets, region: &Region) -> Result<(), AllocError>
    requires whole { IsWhole sets.old }
    requires gathered { WasGathered sets.old.rows region.now.told.items region.now.dropped.items }
    ensures whole { IsWhole sets.new }
    ensures err { OnErr result ((n : ℕ) → row_of sets.new.rows n ≡ row_of sets.old.rows n) }
    ensures nodes { OnOk result ((n : ℕ) → kept sets.new.rows n ≡ in_region sets.old.rows region.now.dropped.items region.now.told.items n) }
    ensures others { OnOk result ((n : ℕ) → stays sets.old.rows region.now.dropped.items n ≡ true → is_told region.now.told.items n ≡ false → row_of sets.new.rows n ≡ row_of sets.old.rows n) }
    ensures held { OnOk result ((before world : ℕ → Fact) (first roots turned changed : List ℕ)
        → IsLevelled world
        → IsHeld before first sets.old.rows
        → IsTurned first roots turned
        → IsGathered world sets.old.rows roots turned changed region.now.told.items region.now.dropped.items
        → IsSameElsewhere before world sets.old.rows changed
        → IsHeld world roots sets.new.rows) }
{
    let fresh = solve(alloc, &region.told, sets)?;
    let ready = ready_for(alloc, &region.told, fresh, sets)?;
    add_back_all(alloc, &mut sets.back, &ready, &region.told)?;
    take_places(&mut sets.rows, &region.told)?;
    drop_rows(&mut sets.rows, &region.dropped, &ready);
    put_rows(&mut sets.rows, ready);
    Ok(())
}

/// The least sets of the roots after a change, in the place of those that were kept, and of no other node than what
/// the roots reach. Each node that is asked for is asked for once, is reached from the roots, and is new or touched.
/// `turned` are the nodes that have become roots or are none any more, `changed` those of which other facts may be
/// known than before; a kept node that the roots do not reach, if there is one, counts among the others. What it
/// costs is said at `gather`. For want of memory the sets are as they were.
pub fn refresh<F: Facts>(
    alloc: Global,
    sets: &mut Sets,
    roots: &IdSet,
    turned: &[u64],
    changed: &[u64],
    facts: &mut F,
) -> Result<(), AllocError>
    requires { IsWhole sets.old }
    ensures whole { IsWhole sets.new }
    ensures later { F.later facts.old facts.new }
    ensures err { OnErr result ((n : ℕ) → row_of sets.new.rows n ≡ row_of sets.old.rows n) }
    ensures asked { OnOk result (IsAskedFew sets.old.rows sets.new.rows changed.now (F.asked facts.old) (F.asked facts.new)) }
    ensures refused { OnErr result (InEachTold (F.tells facts.new) (λ world. IsAskedSome world sets.old.rows roots.now changed.now (F.asked facts.old) (F.asked facts.new))) }
    ensures refreshed { OnOk result (IsRefreshed (F.tells facts.new) sets.old.rows sets.new.rows roots.now turned.now changed.now (F.asked facts.old) (F.asked facts.new)) }
{
    let region = gather(alloc, sets, roots, turned, changed, facts)?;
    fill(alloc, sets, &region)
}

/// Takes away what the roots no longer reach, where some nodes, `turned`, are no roots any more, and gives what it took away.
/// It asks nobody, and changes no row of what the roots reach. It costs what those nodes lead to and what names that, and nothing
/// in what else is kept. For want of memory the sets are as they were.
pub fn sweep(
    alloc: Global,
    sets: &mut Sets,
    roots: &IdSet,
    turned: &[u64],
) -> Result<Vec<u64>, AllocError>
    requires { IsWhole sets.old }
    ensures whole { IsWhole sets.new }
    ensures err { OnErr result ((n : ℕ) → row_of sets.new.rows n ≡ row_of sets.old.rows n) }
    ensures gone { IfOk result (λ gone. (n : ℕ) → kept sets.new.rows n ≡ stays sets.old.rows gone.items n) }
    ensures same { OnOk result ((n : ℕ) → kept sets.new.rows n ≡ true → row_of sets.new.rows n ≡ row_of sets.old.rows n) }
    ensures reached { OnOk result ((n : ℕ) → kept sets.old.rows n ≡ true → IsReached (arc_in sets.old.rows) roots.now n → kept sets.new.rows n ≡ true) }
    ensures held { OnOk result ((world : ℕ → Fact) (first : List ℕ)
        → IsLevelled world
        → IsHeld world first sets.old.rows
        → IsTurned first roots.now turned.now
        → ((n : ℕ) → has roots.now n ≡ true → kept sets.old.rows n ≡ true)
        → IsHeld world roots.now sets.new.rows) }
{
    let touched = Found::new(alloc);
    let named = IdSet::new(alloc);
    let gone = unreached(alloc, sets, &touched, &named, roots, turned)?;
    let swept = Region {
        told: Vec::new(alloc),
        dropped: gone.into_list(),
    };
    fill(alloc, sets, &swept)?;
    Ok(swept.dropped)
}
