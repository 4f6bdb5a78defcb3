//! Where an id stands among ids in order.
ghost use Rattle.std.specs.Prelude.{◌≡◌, ◌≤◌, ◌<◌, length, slice_index, true};
ghost use Rattle.std.specs.List.Sorted.{IsStrictlyIncreasing};
ghost use Rattle.idsets.specs.Sets.{has};
ghost use Rattle.idsets.specs.Places.{IsPlace, AreBelow, AreFrom};

/// How many ids are below one.
pub(crate) fn place_of(ids: &[u64], id: u64) -> usize
    requires { IsStrictlyIncreasing ids.now }
    ensures { IsPlace ids.now id result }
{
    place_between(ids, 0, ids.len(), id)
}

/// The same, of ids of which so many are known to be below it. It costs little where few more are.
pub(crate) fn place_from(ids: &[u64], from: usize, id: u64) -> usize
    requires ascending { IsStrictlyIncreasing ids.now }
    requires within { from ≤ length ids.now }
    requires below { AreBelow ids.now id from }
    ensures { IsPlace ids.now id result }
{
    let mut low = from;
    let mut step = 1;
    'steps: while step <= ids.len() - low {
        let last = low + (step - 1);
        if ids[last] >= id {
            return place_between(ids, low, last, id);
        }
        low = last + 1;
        step = step.saturating_mul(2);
    }
    place_between(ids, low, ids.len(), id)
}

/// The same, where those before one place are below it, and those from another on are not.
fn place_between(ids: &[u64], mut low: usize, mut high: usize, id: u64) -> usize
    requires ascending { IsStrictlyIncreasing ids.now }
    requires up { low ≤ high }
    requires within { high ≤ length ids.now }
    requires below { AreBelow ids.now id low }
    requires from { AreFrom ids.now id high }
    ensures { IsPlace ids.now id result }
{
    'halves: while low < high {
        let mid = low + (high - low) / 2;
        if ids[mid] < id {
            low = mid + 1;
        } else {
            high = mid;
        }
    }
    low
}

/// As many of the ids as are known to be below one, where it was so many for another.
pub(crate) fn known_below(ids: &[u64], at: usize, id: u64) -> usize
    requires ascending { IsStrictlyIncreasing ids.now }
    requires within { at ≤ length ids.now }
    ensures within { result ≤ length ids.now }
    ensures below { AreBelow ids.now id result }
{
    if at > 0 && ids[at - 1] < id { at } else { 0 }
}

/// Whether the id is one of them, where so many are below it.
pub(crate) fn is_at(ids: &[u64], at: usize, id: u64) -> bool
    requires ascending { IsStrictlyIncreasing ids.now }
    requires place { IsPlace ids.now id at }
    ensures is { result ≡ has ids.now id }
    ensures within { result ≡ true → at < length ids.now }
    ensures same { result ≡ true → slice_index ids.now at ≡ id }
{
    at < ids.len() && ids[at] == id
}
