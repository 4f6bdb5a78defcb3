//! What groups led to before a commit.
ghost use Rattle.std.specs.Prelude.{◌≡◌, ◌<◌, ◌≤◌, ◌++◌, ◌∷◌, [], ℕ, List, IfOk, OnOk, filter, length, vec_len};
ghost use Rattle.std.specs.List.{AllWithin};
ghost use Rattle.std.specs.List.Sorted.{IsNonDecreasingBy};
ghost use Rattle.std.specs.Option.{option_map};
ghost use Rattle.region.specs.Tables.{Rows};
ghost use Rattle.delta.specs.Noted.{led_in, led_at};
ghost use Rattle.delta.specs.inside.Noting.{AreNotedOf, leads_elsewhere};

use idsets::IdSet;
use region::Sets;
use std::alloc::{AllocError, Global};

/// What a group led to before a commit with this revision, by its number: none where nothing was kept of it.
#[derive(Drop)]
pub struct Earlier {
    pub rev: u64,
    pub group: u64,
    pub led: Option<IdSet>,
}

/// What the group leads to at a revision, where it is kept there: what was noted first after the revision, or else what
/// is kept now. What was noted after the revision is gone over.
pub(crate) fn led_at<'a>(
    earlier: &'a [Earlier],
    sets: &'a Sets,
    group: u64,
    rev: u64,
) -> Option<&'a IdSet>
    requires { IsNonDecreasingBy (λ e. e.rev) earlier.now }
    ensures { option_map (λ ids. ids.now) result ≡ led_at earlier.now sets.now.rows group rev }
{
    let later = later_than(earlier, rev);
    for e in later {
        if group == e.group {
            return e.led.as_ref();
        }
    }
    sets.members(group)
}

/// What was noted after a revision. It is searched for by halves.
fn later_than(earlier: &[Earlier], rev: u64) -> &[Earlier]
    requires { IsNonDecreasingBy (λ e. e.rev) earlier.now }
    ensures later { AllWithin (λ e. rev < e.rev) result.now 0 (length result.now) }
    ensures led { (rows : Rows) (i : ℕ) → led_at result.now rows i rev ≡ led_at earlier.now rows i rev }
{
    let first = earlier.partition_point(|e| e.rev <= rev);
    &earlier[first..]
}

/// What some groups lead to now, to be noted with a revision.
pub(crate) fn noted(
    alloc: Global,
    rev: u64,
    sets: &Sets,
    groups: &[u64],
) -> Result<Vec<Earlier>, AllocError>
    ensures { IfOk result (λ v. AreNotedOf rev (led_in sets.now.rows) groups.now v.items) }
{
    let mut list = Vec::new(alloc);
    for group in groups {
        push_noted(rev, sets, *group, &mut list)?;
    }
    Ok(list)
}

fn push_noted(rev: u64, sets: &Sets, group: u64, list: &mut Vec<Earlier>) -> Result<(), AllocError>
    ensures { OnOk result ((before : List ℕ) → AreNotedOf rev (led_in sets.now.rows) before list.old.items
        → AreNotedOf rev (led_in sets.now.rows) (before ++ group ∷ []) list.new.items) }
{
    let led = copy_of(sets.members(group))?;
    list.push(Earlier { rev, group, led })?;
    Ok(())
}

fn copy_of(ids: Option<&IdSet>) -> Result<Option<IdSet>, AllocError>
    ensures { IfOk result (λ copy. copy ≡ option_map (λ x. x.now) ids.entry) }
{
    match ids {
        Some(ids) => Ok(Some(ids.again()?)),
        None => Ok(None),
    }
}

/// Of what is noted leaves that of which the group leads elsewhere now.
pub(crate) fn leave_changed(list: &mut Vec<Earlier>, sets: &Sets)
    ensures items { list.new.items ≡ filter (leads_elsewhere sets.now.rows) list.old.items }
    ensures len { vec_len list.new ≤ vec_len list.old }
{
    list.retain(|e| leads_elsewhere(sets, e));
}

fn leads_elsewhere(sets: &Sets, e: &Earlier) -> bool
    ensures { result ≡ leads_elsewhere sets.now.rows e.now }
{
    match (sets.members(e.group), &e.led) {
        (None, None) => false,
        (Some(now), Some(before)) => now.as_slice() != before.as_slice(),
        _ => true,
    }
}
