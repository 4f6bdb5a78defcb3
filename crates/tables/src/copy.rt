//! Copies of commits.
ghost use Rattle.std.specs.Prelude.{◌≡◌, map, IfOk};

use std::alloc::{AllocError, Global};
use tuple_keys::KeptCommit;

/// Each commit again, which shares what it holds.
pub(crate) fn commits_again(
    alloc: Global,
    commits: &[KeptCommit],
) -> Result<Vec<KeptCommit>, AllocError>
    ensures { IfOk result (λ v. v.items ≡ commits.now) }
{
    let mut copies = Vec::with_capacity(alloc, commits.len())?;
    for commit in commits {
        copies.push(commit.again()?)?;
    }
    Ok(copies)
}
