//! The values of the state.
ghost use Rattle.std.specs.Prelude.{◌≡◌, ◌<◌, ℕ, map, length, false, IsTrue, IfSome, None, [], slice_index_or};
ghost use Rattle.sqlite_tables.specs.Stored.{entry_in};
ghost use Rattle.sqlite_tables.specs.declared.stored.StoredEntry.{StoredEntry};
ghost use Rattle.store.specs.Written.{entry, entries_of};
ghost use Rattle.store.specs.inside.Reading.{as_written, IsHead};
ghost use Rattle.store.specs.Refused.{AreOfHead};

use crate::parts::Head;
use names::limits::MAX_REV;
use sqlite_tables::StoredEntry;

const NUMBERS: u64 = 0x8000_0000_0000_0000;

fn is_entry(stored: &StoredEntry, key: &str) -> bool
    ensures passes { IsTrue result → entry_in stored.now ≡ entry key.now stored.now.value }
    ensures refuses { result ≡ false → (value : ℕ) → ¬ (entry_in stored.now ≡ entry key.now value) }
{
    stored.key.as_str() == key
}

fn is_within(head: Head) -> bool
    ensures passes { IsTrue result → IsHead head }
    ensures refuses { result ≡ false → ¬ (IsHead head) }
{
    1 <= head.number && head.number < NUMBERS && head.floor <= head.newest && head.newest <= MAX_REV
}

/// The state's four values, in the order of their keys.
pub(crate) fn read_head(entries: &[StoredEntry]) -> Option<Head>
    ensures entries { IfSome result (λ head. map entry_in entries.now ≡ entries_of (as_written head [] [])) }
    ensures within { IfSome result IsHead }
    ensures refuses { result ≡ None → ¬ (AreOfHead entries.now) }
{
    if entries.len() != 4 {
        return None;
    }
    let head = Head {
        number: entries[3].value,
        floor: entries[0].value,
        newest: entries[2].value,
    };
    if is_entry(&entries[0], "floor")
        && is_entry(&entries[1], "format")
        && is_entry(&entries[2], "newest")
        && is_entry(&entries[3], "store")
        && entries[1].value == 1
        && is_within(head)
    {
        return Some(head);
    }
    None
}
