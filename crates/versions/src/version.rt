//! Versions.
ghost use Rattle.std.specs.Prelude.{◌≡◌, ◌<◌, ◌≤◌, ◌++◌, ◌∷◌, [], true, drop, length, OnOk, OnErr, IfOk};
ghost use Rattle.std.specs.List.{AllWithin};
ghost use Rattle.versions.specs.Versions.{is_put, version_of, stands, IsRising, is_there, is_based, last_rev, drop_last, after_settle, after_settle_first};
ghost use Rattle.versions.specs.Inline.{kept_versions};

use names::EventKind;
use std::alloc::{AllocError, Global};
use std::collections::VecDeque;
use std::marker::Model;
use tuple_keys::KeptEvent;

/// At this revision a tuple was put, or else taken away. What the floor holds was put at revision 0.
#[derive(Clone, Copy, Debug, Drop)]
pub struct Version {
    pub rev: u64,
    pub put: bool,
}

impl Version {
    /// The version of an event.
    pub(crate) fn of(rev: u64, event: &KeptEvent<'_>) -> Version
        ensures { result ≡ version_of rev event.now }
    {
        Version {
            rev,
            put: is_put(event.kind()),
        }
    }
}

/// The versions of one tuple, oldest first. Contracts see them as a list.
#[derive(Drop)]
pub(crate) struct Versions {
    alloc: Global,
    kept: Kept,
}

// Most tuples never have a second version, so the first takes no memory of its own. More are boxed, so that what
// holds the first stays small. What has had many keeps their room.
#[derive(Drop)]
enum Kept {
    None,
    One(Version),
    Many(Box<VecDeque<Version>>),
}

impl Model for Versions {
    ghost use Rattle.std.specs.Prelude.{List};
    ghost use Rattle.versions.specs.declared.version.Version.{Version as VersionValue};

    ghost Value = { List VersionValue };

    ghost use Rattle.versions.specs.Inline.{kept_versions};

    ghost view = { λ m. kept_versions m.kept };
}

impl Versions {
    /// No version. It takes no memory.
    pub(crate) fn none(alloc: Global) -> Versions
        ensures { result ≡ [] }
    {
        Versions {
            alloc,
            kept: Kept::None,
        }
    }

    pub(crate) fn one(alloc: Global, version: Version) -> Versions
        ensures { result ≡ version ∷ [] }
    {
        Versions {
            alloc,
            kept: Kept::One(version),
        }
    }

    pub(crate) fn is_empty(&self) -> bool
        ensures { result ≡ true → self.now ≡ [] }
    {
        match &self.kept {
            Kept::None => true,
            Kept::One(_) => false,
            Kept::Many(versions) => versions.is_empty(),
        }
    }

    /// Whether the last version up to a revision is a put.
    pub(crate) fn stands_at(&self, rev: u64) -> bool
        requires { IsRising self.now }
        ensures { result ≡ stands self.now rev }
    {
        match &self.kept {
            Kept::None => false,
            Kept::One(version) => version.rev <= rev && version.put,
            Kept::Many(versions) => stands_at(versions, rev),
        }
    }

    /// Whether the last version is a put.
    pub(crate) fn is_there(&self) -> bool
        ensures { result ≡ is_there self.now }
    {
        match &self.kept {
            Kept::None => false,
            Kept::One(version) => version.put,
            Kept::Many(versions) => is_there(versions),
        }
    }

    /// The revision of the last version.
    pub(crate) fn last_rev(&self) -> u64
        ensures { result ≡ last_rev self.now }
    {
        match &self.kept {
            Kept::None => 0,
            Kept::One(version) => version.rev,
            Kept::Many(versions) => last_rev(versions),
        }
    }

    pub(crate) fn add(&mut self, version: Version) -> Result<(), AllocError>
        ensures ok { OnOk result (self.new ≡ self.old ++ version ∷ []) }
        ensures err { OnErr result (self.new ≡ self.old) }
    {
        add_kept(self.alloc, &mut self.kept, version)
    }

    /// Takes the newest version off.
    pub(crate) fn drop_newest(&mut self)
        ensures { self.new ≡ drop_last self.old }
    {
        drop_kept(&mut self.kept);
    }

    /// Takes the oldest version above the floor into what the floor holds. Says whether the floor held the
    /// tuple before.
    pub(crate) fn settle(&mut self) -> bool
        ensures versions { self.new ≡ after_settle self.old }
        ensures was_based { result ≡ is_based self.old }
    {
        settle_kept(&mut self.kept)
    }
}

fn add_kept(alloc: Global, kept: &mut Kept, version: Version) -> Result<(), AllocError>
    ensures ok { OnOk result (kept_versions kept.new ≡ kept_versions kept.old ++ version ∷ []) }
    ensures err { OnErr result (kept_versions kept.new ≡ kept_versions kept.old) }
{
    match kept {
        Kept::None => *kept = Kept::One(version),
        Kept::One(first) => *kept = Kept::Many(two_versions(alloc, *first, version)?),
        Kept::Many(versions) => add_version(versions, version)?,
    }
    Ok(())
}

fn two_versions(
    alloc: Global,
    first: Version,
    second: Version,
) -> Result<Box<VecDeque<Version>>, AllocError>
    ensures { IfOk result (λ versions. versions.value.items ≡ first ∷ second ∷ []) }
{
    let mut versions = VecDeque::with_capacity(alloc, 2)?;
    versions.push_back(first)?;
    versions.push_back(second)?;
    match Box::new(alloc, versions) {
        Ok(versions) => Ok(versions),
        Err(_) => Err(AllocError),
    }
}

fn drop_kept(kept: &mut Kept)
    ensures { kept_versions kept.new ≡ drop_last (kept_versions kept.old) }
{
    match kept {
        Kept::Many(versions) => drop_version(versions),
        Kept::None | Kept::One(_) => *kept = Kept::None,
    }
}

/// Takes the oldest version above the floor into what the floor holds. Says whether the floor held the
/// tuple before.
fn settle_kept(kept: &mut Kept) -> bool
    ensures versions { kept_versions kept.new ≡ after_settle (kept_versions kept.old) }
    ensures was_based { result ≡ is_based (kept_versions kept.old) }
{
    match kept {
        Kept::None => false,
        Kept::One(version) => {
            let was_based = version.rev == 0;
            *kept = settled(*version);
            was_based
        }
        Kept::Many(versions) => settle(versions),
    }
}

/// What is left of a tuple's only version, once it is taken into what the floor holds.
fn settled(version: Version) -> Kept
    ensures { kept_versions result ≡ after_settle (version ∷ []) }
{
    if version.rev != 0 && version.put {
        return Kept::One(Version { rev: 0, put: true });
    }
    Kept::None
}

fn is_put(kind: EventKind) -> bool
    ensures { result ≡ is_put kind }
{
    match kind {
        EventKind::Put => true,
        EventKind::Del => false,
    }
}

/// Whether the last version up to a revision is a put. Most revisions asked for are near the newest.
fn stands_at(versions: &VecDeque<Version>, rev: u64) -> bool
    requires { IsRising versions.now.items }
    ensures { result ≡ stands versions.now.items rev }
{
    let Some(newest) = versions.back() else {
        return false;
    };
    if newest.rev <= rev {
        return newest.put;
    }
    let count = count_up_to(versions, rev);
    if count == 0 {
        return false;
    }
    versions[count - 1].put
}

/// How many of the first versions are up to a revision.
fn count_up_to(versions: &VecDeque<Version>, rev: u64) -> usize
    requires { IsRising versions.now.items }
    ensures within { result ≤ length versions.now.items }
    ensures up_to { AllWithin (λ m. m.rev ≤ rev) versions.now.items 0 result }
    ensures past { AllWithin (λ m. rev < m.rev) versions.now.items result (length versions.now.items) }
{
    versions.partition_point(|version| version.rev <= rev)
}

/// Whether the last version is a put.
fn is_there(versions: &VecDeque<Version>) -> bool
    ensures { result ≡ is_there versions.now.items }
{
    let Some(version) = versions.back() else {
        return false;
    };
    version.put
}

/// The revision of the last version.
fn last_rev(versions: &VecDeque<Version>) -> u64
    ensures { result ≡ last_rev versions.now.items }
{
    match versions.back() {
        Some(version) => version.rev,
        None => 0,
    }
}

fn add_version(versions: &mut VecDeque<Version>, version: Version) -> Result<(), AllocError>
    ensures ok { OnOk result (versions.new.items ≡ versions.old.items ++ version ∷ []) }
    ensures err { OnErr result (versions.new.items ≡ versions.old.items) }
{
    versions.push_back(version)?;
    Ok(())
}

fn drop_version(versions: &mut VecDeque<Version>)
    ensures { versions.new.items ≡ drop_last versions.old.items }
{
    let _ = versions.pop_back();
}

/// Whether the first version is of what the floor holds.
fn is_based(versions: &VecDeque<Version>) -> bool
    ensures { result ≡ is_based versions.now.items }
{
    match versions.front() {
        Some(version) => version.rev == 0,
        None => false,
    }
}

/// Takes the oldest version above the floor into what the floor holds. Says whether the floor held the
/// tuple before.
fn settle(versions: &mut VecDeque<Version>) -> bool
    ensures versions { versions.new.items ≡ after_settle versions.old.items }
    ensures was_based { result ≡ is_based versions.old.items }
{
    let was_based = is_based(versions);
    if was_based {
        drop_first(versions);
    }
    settle_first(versions);
    was_based
}

fn settle_first(versions: &mut VecDeque<Version>)
    ensures { versions.new.items ≡ after_settle_first versions.old.items }
{
    if versions.is_empty() {
        return;
    }
    if versions[0].put {
        versions[0] = Version { rev: 0, put: true };
    } else {
        drop_first(versions);
    }
}

fn drop_first(versions: &mut VecDeque<Version>)
    ensures { versions.new.items ≡ drop 1 versions.old.items }
{
    let _ = versions.pop_front();
}
