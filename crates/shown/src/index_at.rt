//! A group index that was made elsewhere.

use group_index::GroupIndex;

/// A group index of one revision.
#[derive(Drop)]
pub struct IndexAt {
    pub rev: u64,
    pub index: GroupIndex,
}
