//! Objects.
ghost use Rattle.std.specs.Prelude.{◌≡◌, Some, IsTrue, IfOk, IfErr, false};
ghost use Rattle.names.specs.Refusals.{IsMalformed};

use crate::object_id::is_spelled;
use crate::{Name, ObjectId, Refusal};
use std::fmt;

/// An object, spelled `namespace:id`. Objects are ordered by namespace, then by id.
#[derive(Clone, Debug, PartialEq, Eq, PartialOrd, Ord, Hash, Drop)]
pub struct Object {
    pub namespace: Name,
    pub id: ObjectId,
}

impl Object {
    ghost use Rattle.names.specs.declared.object.Object.{Object};
    ghost use Rattle.names.specs.Names.{is_id};
    ghost use Rattle.names.specs.Spelling.{SpellsObject};

    /// Reads an object's spelling.
    pub fn parse(text: &str) -> Result<Object, Refusal>
        ensures ok { IfOk result (λ o. SpellsObject text.now o) }
        ensures err { IfErr result (λ e. IsMalformed ((o : Object) → ¬ (SpellsObject text.now o)) e) }
    {
        let Some((namespace, id)) = text.split_once(':') else {
            return Err(Refusal::Malformed);
        };
        let namespace = Name::parse(namespace)?;
        Object::of(namespace, id)
    }

    /// The object of a namespace with this id.
    pub fn of(namespace: Name, id: &str) -> Result<Object, Refusal>
        ensures ok { IfOk result (λ o. (o.namespace ≡ namespace) × (o.id ≡ id.now) × IsTrue (is_id id.now)) }
        ensures err { IfErr result (λ e. IsMalformed (is_id id.now ≡ false) e) }
    {
        if !is_spelled(id.as_bytes()) {
            return Err(Refusal::Malformed);
        }
        let id = ObjectId::spelled(id);
        Ok(Object { namespace, id })
    }

    /// The same object. A copy takes no memory, so nothing refuses it.
    pub fn again(&self) -> Object
        ensures { result ≡ self.now }
    {
        Object {
            namespace: self.namespace.again(),
            id: self.id.again(),
        }
    }
}

impl fmt::Display for Object {
    ghost use Rattle.names.specs.Spelling.{object_text};

    ghost output = { λ o. Some (object_text o) };

    fn fmt<W: fmt::Write>(&self, f: &mut fmt::Formatter<W>) -> fmt::Result {
        let namespace = self.namespace.as_str();
        let id = self.id.as_str();
        write!(f, "{namespace}:{id}")
    }
}
