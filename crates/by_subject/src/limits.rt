//! How much is gone over by subject.
ghost use Rattle.std.specs.Prelude.{◌≡◌, ◌+◌, ◌*◌};

/// How many tuples that name a subject are gone over, or nodes reached, for at most so many answers, before the other way is
/// taken, which goes over a namespace: then what is asked for stands close together there.
pub fn most_for(limit: u16) -> usize
    ensures { result ≡ 16 * limit + 4_096 }
{
    16 * limit as usize + 4_096
}
