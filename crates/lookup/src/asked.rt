//! What a lookup asks for.
ghost use Rattle.std.specs.Prelude.{◌≡◌};
ghost use Rattle.lookup.specs.Found.{is_later};

use names::{Object, ObjectId, RelationName};

/// Which objects are asked for: those of the namespace to which the user has the relation. Of them those whose
/// ids come later than one by their bytes, where it is given, and at most so many, which should be from 1 to [`rows::MAX_PAGE`].
#[derive(Debug, Drop)]
pub struct Lookup {
    pub relation: RelationName,
    pub user: Object,
    pub after: Option<ObjectId>,
    pub limit: u16,
}

/// Whether the id comes later than this, if one is given.
pub(crate) fn is_later(after: &Option<ObjectId>, id: &ObjectId) -> bool
    ensures { result ≡ is_later after.now id.now }
{
    match after {
        Some(after) => after.cmp(id).is_lt(),
        None => true,
    }
}
