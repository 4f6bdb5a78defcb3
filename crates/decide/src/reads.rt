//! What was read of a view's objects. The tuples of an object stand together, and most objects have few: they are found
//! once, for all of the object's relations, and borrowed; so are the objects that those of a tupleset name.
ghost use Rattle.std.specs.Prelude.{◌≡◌, ◌<◌, [], Contains, IfOk, IfSome, IsTrue, filter, length};
ghost use Rattle.meaning.specs.Snap.{Snap};
ghost use Rattle.meaning.specs.TupleSet as set;
ghost use Rattle.names.specs.declared.object.Object.{Object};
ghost use Rattle.names.specs.declared.tuple.Tuple.{Tuple};
ghost use Rattle.tuple_keys.specs.Named.{is_at};
ghost use Rattle.decide.specs.inside.Reading.{AreNamed, AreRead, IsReadAt, IsReadOf};

use crate::facts::{Facts, named_objects, node_of};
use crate::numbers::Numbers;
use crate::read_tuple::{ReadTuple, read_tuples};
use config_text::Rewrite;
use names::{Name, Object};
use rows::View;
use std::alloc::{AllocError, Global};

/// So many tuples of an object are few.
const FEW: usize = 8;

/// What was read of an object: its tuples, where they are few, and the objects that those of a tupleset name.
#[derive(Drop)]
pub(crate) struct Read<'a> {
    object: Object,
    few: Option<Vec<ReadTuple<'a>>>,
    named: Option<Named>,
}

/// The objects that the tupleset's tuples name.
#[derive(Drop)]
pub(crate) struct Named {
    tupleset: Name,
    objects: Vec<Object>,
}

/// What was read, where an object's stands, and where that of the object stands that was asked for last.
#[derive(Drop)]
pub(crate) struct Reads<'a> {
    alloc: Global,
    read: Vec<Read<'a>>,
    places: Numbers,
    last: usize,
}

impl<'a> Reads<'a> {
    /// Nothing was read.
    pub(crate) fn none(alloc: Global, seed: u64) -> Reads<'a>
        ensures { result.read.items ≡ [] }
    {
        Reads {
            alloc,
            read: Vec::new(alloc),
            places: Numbers::new(alloc, seed),
            last: 0,
        }
    }

    /// Finds the object's tuples, where it has few, unless that was done, and says where they stand. A rewrite that looks
    /// up the node alone needs them not.
    pub(crate) fn read_for(
        &mut self,
        facts: &Facts<'a>,
        rewrite: &Rewrite,
        object: &Object,
    ) -> Result<Option<usize>, AllocError>
        requires { AreRead facts.now self.old }
        ensures read { AreRead facts.now self.new }
        ensures at { IfOk result (λ o. IfSome o (IsReadAt self.new object.now)) }
    {
        match rewrite {
            Rewrite::This => Ok(None),
            _ => {
                let place = self.read(facts, rewrite, object)?;
                Ok(Some(place))
            }
        }
    }

    fn read(
        &mut self,
        facts: &Facts<'a>,
        rewrite: &Rewrite,
        object: &Object,
    ) -> Result<usize, AllocError>
        requires { AreRead facts.now self.old }
        ensures read { AreRead facts.now self.new }
        ensures at { IfOk result (IsReadAt self.new object.now) }
    {
        let key = match self.seen(object) {
            Ok(place) => {
                self.last = place;
                return Ok(place);
            }
            Err(key) => key,
        };
        let few = facts.few_of(object, FEW)?;
        let named = named_by(self.alloc, &few, rewrite, object)?;
        let place = self.read.len();
        self.places.insert(key, place)?;
        self.read.push(Read {
            object: object.again(),
            few,
            named,
        })?;
        self.last = place;
        Ok(place)
    }

    /// Where what was read of the object stands, or else a key that is free for it.
    fn seen(&self, object: &Object) -> Result<usize, u64>
        ensures { IfOk result (IsReadAt self.now object.now) }
    {
        if self.is_read_at(self.last, object) {
            return Ok(self.last);
        }
        let mut key = self.places.key_of_object(object);
        'keys: for _ in 0..self.read.len() {
            let Some(place) = self.places.get(key) else {
                return Err(key);
            };
            if self.is_read_at(place, object) {
                return Ok(place);
            }
            key = key.wrapping_add(1);
        }
        Err(key)
    }

    fn is_read_at(&self, place: usize, object: &Object) -> bool
        ensures { IsTrue result → IsReadAt self.now object.now place }
    {
        place < self.read.len() && self.read[place].object == *object
    }

    /// What was read at the place.
    pub(crate) fn at(&self, place: Option<usize>) -> Option<&Read<'a>>
        requires { IfSome place (λ i. i < length self.now.read.items) }
        ensures { (S : Snap) (o : Object) → AreRead S self.now → IfSome place (IsReadAt self.now o) → IsReadOf S o result }
    {
        match place {
            Some(place) => Some(&self.read[place]),
            None => None,
        }
    }
}

/// The object's tuples, where they were read and are few.
pub(crate) fn few_in<'b, 'a>(read: Option<&'b Read<'a>>) -> Option<&'b [ReadTuple<'a>]>
    ensures { IfSome result (λ ts. (S : Snap) (o : Object) → IsReadOf S o read.entry
        → ts.now ≡ filter (is_at o) (set.items S.tuples)) }
{
    match read {
        Some(read) => match &read.few {
            Some(few) => Some(few.as_slice()),
            None => None,
        },
        None => None,
    }
}

/// The objects that the object's tuples of the tupleset name, where they were read.
pub(crate) fn named_in<'b>(read: Option<&'b Read<'_>>, tupleset: &Name) -> Option<&'b [Object]>
    ensures { IfSome result (λ os. (S : Snap) (o : Object) → IsReadOf S o read.entry → AreNamed S o tupleset.now os.now) }
{
    let named = match read {
        Some(read) => read.named.as_ref()?,
        None => return None,
    };
    if named.tupleset == *tupleset {
        return Some(named.objects.as_slice());
    }
    None
}

/// What those of the object's tuples name that are of the rewrite's tupleset, where it has few.
fn named_by(
    alloc: Global,
    few: &Option<Vec<ReadTuple<'_>>>,
    rewrite: &Rewrite,
    object: &Object,
) -> Result<Option<Named>, AllocError>
    requires { IfSome few.now (λ v. (t : Tuple) → Contains v.items t → t.node.object ≡ object.now) }
    ensures { IfOk result (λ o. IfSome o (λ named. (S : Snap)
        → IfSome few.now (λ v. v.items ≡ filter (is_at object.now) (set.items S.tuples))
        → AreNamed S object.now named.tupleset named.objects.items)) }
{
    let Some(tuples) = few else {
        return Ok(None);
    };
    let Some(tupleset) = tupleset_of(rewrite) else {
        return Ok(None);
    };
    let from = node_of(object, tupleset);
    let objects = named_objects(alloc, tuples.as_slice(), &from)?;
    Ok(Some(Named {
        tupleset: tupleset.again(),
        objects,
    }))
}

/// A tupleset of the rewrite, if it has one in its first part.
fn tupleset_of(rewrite: &Rewrite) -> Option<&Name> {
    match rewrite {
        Rewrite::Exclusion(base, _) => among_parts(base),
        _ => among_parts(rewrite),
    }
}

fn among_parts(rewrite: &Rewrite) -> Option<&Name> {
    match rewrite {
        Rewrite::Union(parts) => {
            for part in parts {
                if let Some(tupleset) = own_tupleset(part) {
                    return Some(tupleset);
                }
            }
            None
        }
        _ => own_tupleset(rewrite),
    }
}

fn own_tupleset(rewrite: &Rewrite) -> Option<&Name> {
    match rewrite {
        Rewrite::TupleTo { tupleset, .. } => Some(tupleset),
        _ => None,
    }
}
