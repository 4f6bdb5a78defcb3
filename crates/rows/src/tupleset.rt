//! What a read asks for.

use names::{Name, ObjectId, Subject, Tuple};

/// The most tuples of a page; the least is 1.
pub const MAX_PAGE: u16 = 1_000;

/// Which tuples a read asks for (Zanzibar, section 2.4): those of the namespace's objects, and where more is
/// given of this object, of this relation, and that name this subject. Of them those that come later than one,
/// where it is given, and at most so many.
#[derive(Debug, Drop)]
pub struct Tupleset {
    pub namespace: Name,
    pub object: Option<ObjectId>,
    pub relation: Option<Name>,
    pub subject: Option<Subject>,
    pub after: Option<Tuple>,
    pub limit: u16,
}
