//! The worked rows: a document whose viewers come from a folder and its groups, less the banned ones, and two
//! groups that hold each other.
use crate::kept::Kept;
use crate::table::Known;
use idsets::IdSet;
use std::alloc::{AllocError, Global};
use std::test::Fail;

const A: u64 = 1;

const B: u64 = 2;

const C: u64 = 3;

const V: u64 = 4;

const Z: u64 = 5;

const BANNED: u64 = 10;

const OWNER: u64 = 11;

const PARENT: u64 = 12;

const FOLDER: u64 = 13;

const VIEWER: u64 = 256;

const ANN: u64 = 100;

const ZOE: u64 = 101;

// The document's viewers: what is in the folder, if it has one, and its owners, without those that are banned.
fn viewers(alloc: Global, any: &[u64]) -> Result<Known, AllocError> {
    let any = any.to_vec(alloc)?;
    let reads = vec![in alloc; PARENT]?;
    let less = vec![in alloc; BANNED]?;
    Ok(Known {
        node: VIEWER,
        own: IdSet::new(alloc),
        any,
        reads,
        less,
    })
}

// The document is in a folder, whose viewers are those of V. Of three groups two hold each other, and one of them holds
// the third, which holds Ann.
fn know_a_folder(alloc: Global, kept: &mut Kept) -> Result<(), AllocError> {
    kept.learn(viewers(alloc, &[OWNER, FOLDER])?)?;
    kept.know(alloc, PARENT, &[], &[])?;
    kept.know(alloc, FOLDER, &[], &[V])?;
    kept.know(alloc, V, &[ANN], &[])?;
    kept.know(alloc, A, &[], &[B])?;
    kept.know(alloc, B, &[], &[A, C])?;
    kept.know(alloc, C, &[ANN], &[])
}

fn asks_all_without_a_folder(alloc: Global, kept: &mut Kept) -> Result<bool, AllocError> {
    kept.learn(viewers(alloc, &[OWNER])?)?;
    kept.refresh(alloc, &[VIEWER], &[])?;
    Ok(kept.has_asked(&[VIEWER, OWNER, PARENT, BANNED]))
}

fn has_the_folders_viewers(alloc: Global, kept: &mut Kept) -> Result<bool, AllocError> {
    know_a_folder(alloc, kept)?;
    kept.refresh(alloc, &[], &[PARENT, FOLDER, V, A, B, C])?;
    let asked = kept.has_asked(&[VIEWER, FOLDER, PARENT, V]);
    Ok(asked && kept.has(VIEWER, ANN) && !kept.is_kept(C))
}

fn lacks_whom_a_cycle_bans(alloc: Global, kept: &mut Kept) -> Result<bool, AllocError> {
    kept.know(alloc, BANNED, &[], &[A])?;
    kept.refresh(alloc, &[], &[BANNED])?;
    let asked = kept.has_asked(&[VIEWER, BANNED, A, B, C]);
    Ok(asked && kept.is_kept(VIEWER) && !kept.has(VIEWER, ANN) && kept.has(A, ANN))
}

fn has_whom_the_broken_cycle_banned(alloc: Global, kept: &mut Kept) -> Result<bool, AllocError> {
    kept.know(alloc, B, &[], &[A])?;
    kept.refresh(alloc, &[], &[B])?;
    let asked = kept.has_asked(&[VIEWER, BANNED, A, B]);
    let given_back = kept.has(VIEWER, ANN) && !kept.is_kept(C);
    Ok(asked && given_back && kept.is_kept(A) && !kept.has(A, ANN) && !kept.has(B, ANN))
}

fn follows_each_change(alloc: Global, kept: &mut Kept) -> Result<bool, AllocError> {
    let first = asks_all_without_a_folder(alloc, kept)?;
    let viewed = first && has_the_folders_viewers(alloc, kept)?;
    let banned = viewed && lacks_whom_a_cycle_bans(alloc, kept)?;
    Ok(banned && has_whom_the_broken_cycle_banned(alloc, kept)?)
}

fn is_given_back(alloc: Global) -> Result<bool, AllocError> {
    let mut kept = Kept::new(alloc, IdSet::of(vec![in alloc; VIEWER]?));
    follows_each_change(alloc, &mut kept)
}

#[test]
fn a_break_of_a_cycle_gives_back_whom_it_banned(rt: HostRuntime) -> Result<(), Fail> {
    assert!(rt; is_given_back(rt.alloc())?);
    Ok(())
}

fn hold_each_other(alloc: Global, kept: &mut Kept) -> Result<bool, AllocError> {
    kept.know(alloc, A, &[], &[B])?;
    kept.know(alloc, B, &[ANN], &[A])?;
    kept.know(alloc, Z, &[ZOE], &[])?;
    kept.refresh(alloc, &[A, Z], &[])?;
    let asked = kept.has_asked(&[A, Z, B]);
    Ok(asked && kept.has(A, ANN) && kept.has(B, ANN) && kept.has(Z, ZOE))
}

fn are_emptied(alloc: Global, kept: &mut Kept) -> Result<bool, AllocError> {
    kept.know(alloc, B, &[], &[A])?;
    kept.refresh(alloc, &[], &[B])?;
    let empty = kept.has_asked(&[A, B]) && !kept.has(A, ANN) && !kept.has(B, ANN);
    Ok(empty && kept.has(Z, ZOE) && kept.is_kept(A) && kept.is_kept(B))
}

fn lose_ann(alloc: Global, kept: &mut Kept) -> Result<bool, AllocError> {
    Ok(hold_each_other(alloc, kept)? && are_emptied(alloc, kept)?)
}

fn groups_lose_ann(alloc: Global) -> Result<bool, AllocError> {
    let mut kept = Kept::new(alloc, IdSet::of(vec![in alloc; A, Z]?));
    lose_ann(alloc, &mut kept)
}

#[test]
fn groups_that_hold_each_other_are_emptied(rt: HostRuntime) -> Result<(), Fail> {
    assert!(rt; groups_lose_ann(rt.alloc())?);
    Ok(())
}
