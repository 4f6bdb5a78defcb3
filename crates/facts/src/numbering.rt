//! Numbers for names.
ghost use Rattle.std.specs.Prelude.{◌≡◌, ◌++◌, ◌∷◌, [], length, nat_lt, if◌then◌else◌, Some, IfOk, OnErr};
ghost use Rattle.std.specs.List.{slice_get};
ghost use Rattle.facts.specs.Numbers.{Grew};

use idsets::{Ids, Named};
use std::alloc::AllocError;

/// The number of a name, the next one if it was not seen before. For want of memory no name gets one.
pub fn number_of<N: Named>(ids: &mut Ids<N>, name: &N) -> Result<u64, AllocError>
    ensures grew { Grew ids.old ids.new }
    ensures names { IfOk result (λ id. ids.new ≡ (if nat_lt id (length ids.old) then ids.old else ids.old ++ name.now ∷ [])) }
    ensures err { OnErr result (ids.new ≡ ids.old) }
    ensures id { IfOk result (λ id. slice_get ids.new id ≡ Some name.now) }
{
    if let Some(id) = ids.id_of(name) {
        return Ok(id);
    }
    ids.see(name.clone()?)
}
