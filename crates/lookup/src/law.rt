//! What holds of lookups.
ghost use Rattle.lookup.specs.Law.{OnlyKnownHaveUsers, LookupsAreOne};

/// The law that an object has no users where no tuple is of it, whatever its relations are: so it is enough to
/// go over the objects that tuples are of. It holds in a configuration without an empty intersection, as each
/// that is accepted is.
pub fn an_object_that_no_tuple_names_has_no_users()
    ensures { OnlyKnownHaveUsers }
{}

/// The law that a lookup has one answer: so that does not depend on its oracle, nor on how objects are found.
pub fn lookups_are_one()
    ensures { LookupsAreOne }
{}
