//! A ring that is cut off, nodes that are no roots any more, and the two halves of a refresh apart.
use crate::kept::Kept;
use crate::table::gather_by;
use idsets::IdSet;
use region::fill;
use std::alloc::{AllocError, Global};
use std::test::Fail;

const USER: u64 = 1_000;

// A node 0 that leads to a ring of 50, of which the last holds a user, and a node 100 beside them.
fn know_a_ring(alloc: Global, kept: &mut Kept) -> Result<(), AllocError> {
    kept.know(alloc, 0, &[], &[1])?;
    for i in 1..50 {
        kept.know(alloc, i, &[], &[i + 1])?;
    }
    kept.know(alloc, 50, &[USER], &[1])?;
    kept.know(alloc, 100, &[USER], &[])
}

fn keeps_a_ring(alloc: Global, kept: &mut Kept) -> Result<bool, AllocError> {
    know_a_ring(alloc, kept)?;
    kept.refresh(alloc, &[0, 100], &[])?;
    Ok(kept.has(0, USER) && kept.has(25, USER) && kept.table.asked.len() == 52)
}

fn cuts_it_off(alloc: Global, kept: &mut Kept) -> Result<bool, AllocError> {
    kept.know(alloc, 0, &[], &[])?;
    kept.refresh(alloc, &[], &[0])?;
    let asked = kept.has_asked(&[0]) && kept.is_kept(0) && !kept.has(0, USER);
    let gone = !kept.is_kept(1) && !kept.is_kept(25) && !kept.is_kept(50);
    Ok(asked && kept.has(100, USER) && gone && kept.sets.rows.len() == 2)
}

fn keeps_and_cuts(alloc: Global, kept: &mut Kept) -> Result<bool, AllocError> {
    Ok(keeps_a_ring(alloc, kept)? && cuts_it_off(alloc, kept)?)
}

fn a_ring_is_kept(alloc: Global) -> Result<bool, AllocError> {
    let mut kept = Kept::new(alloc, IdSet::of(vec![in alloc; 0, 100]?));
    keeps_and_cuts(alloc, &mut kept)
}

#[test]
fn a_ring_is_kept_and_then_cut_off(rt: HostRuntime) -> Result<(), Fail> {
    assert!(rt; a_ring_is_kept(rt.alloc())?);
    Ok(())
}

fn has_two_roots(alloc: Global, kept: &mut Kept) -> Result<(), AllocError> {
    know_a_ring(alloc, kept)?;
    kept.refresh(alloc, &[0, 25], &[])
}

fn keeps_what_one_root_reaches(alloc: Global, kept: &mut Kept) -> Result<bool, AllocError> {
    kept.leave(alloc, IdSet::of(vec![in alloc; 25]?), &[0])?;
    let stays = !kept.is_kept(0) && kept.has(1, USER) && kept.has(50, USER);
    Ok(stays && kept.sets.rows.len() == 50)
}

fn keeps_nothing(alloc: Global, kept: &mut Kept) -> Result<bool, AllocError> {
    kept.leave(alloc, IdSet::new(alloc), &[25])?;
    Ok(kept.sets.rows.is_empty() && kept.has_asked(&[]))
}

fn loses_two_roots(alloc: Global, kept: &mut Kept) -> Result<bool, AllocError> {
    has_two_roots(alloc, kept)?;
    Ok(keeps_what_one_root_reaches(alloc, kept)? && keeps_nothing(alloc, kept)?)
}

fn two_roots_are_lost(alloc: Global) -> Result<bool, AllocError> {
    let mut kept = Kept::new(alloc, IdSet::of(vec![in alloc; 0, 25]?));
    loses_two_roots(alloc, &mut kept)
}

#[test]
fn what_another_root_reaches_stays(rt: HostRuntime) -> Result<(), Fail> {
    assert!(rt; two_roots_are_lost(rt.alloc())?);
    Ok(())
}

impl Kept {
    // Gathers a ring, which keeps nothing yet, and then fills it in.
    fn gathers_and_fills(&mut self, alloc: Global) -> Result<bool, AllocError> {
        let (sets, table) = (&mut self.sets, &mut self.table);
        let region = gather_by(alloc, sets, &self.roots, &[49], &[], table)?;
        let gathered = region.told.len() == 50 && region.dropped.is_empty() && !sets.is_kept(49);
        fill(alloc, sets, &region)?;
        Ok(gathered)
    }
}

fn is_filled(alloc: Global, kept: &mut Kept) -> Result<bool, AllocError> {
    know_a_ring(alloc, kept)?;
    let gathered = kept.gathers_and_fills(alloc)?;
    Ok(gathered && kept.has(49, USER) && !kept.is_kept(0) && !kept.is_kept(100))
}

fn a_ring_is_filled(alloc: Global) -> Result<bool, AllocError> {
    let mut kept = Kept::new(alloc, IdSet::of(vec![in alloc; 49]?));
    is_filled(alloc, &mut kept)
}

#[test]
fn a_refresh_is_a_gathering_and_a_filling(rt: HostRuntime) -> Result<(), Fail> {
    assert!(rt; a_ring_is_filled(rt.alloc())?);
    Ok(())
}
