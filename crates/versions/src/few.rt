//! The tuples of an object, where it has few.
ghost use Rattle.std.specs.Prelude.{◌≡◌, ◌<◌, ◌++◌, ◌∷◌, [], filter, length, IfOk, IfSome, IfNone, OnOk};
ghost use Rattle.std.specs.List.Sorted.{IsStrictlySortedBy};
ghost use Rattle.names.specs.Order.{tuple_cmp};
ghost use Rattle.versions.specs.Versions.{AreRising, keys, tuples_at};
ghost use Rattle.tuple_keys.specs.Named.{is_at};
ghost use Rattle.tuple_keys.specs.Spelled.{tuple_of, IsSpelling};

use crate::version_map::VersionMap;
use names::Object;
use std::alloc::{AllocError, Global};
use tuple_keys::{Start, TupleRef};

impl VersionMap {
    /// The tuples of the object that stand at a revision, or `None` where the map has more than `most` of its
    /// tuples. Their texts stand together: they begin with the object's. None is copied.
    pub fn tuples_at_object(
        &self,
        alloc: Global,
        rev: u64,
        object: &Object,
        most: usize,
    ) -> Result<Option<Vec<TupleRef<'_>>>, AllocError>
        requires { AreRising self.now }
        ensures found { IfOk result (λ o. IfSome o (λ v. v.items ≡ filter (is_at object.now) (tuples_at self.now rev))) }
        ensures few { IfOk result (λ o. IfNone o (most < length (filter (is_at object.now) (keys self.now)))) }
        ensures ordered { IfOk result (λ o. IsStrictlySortedBy tuple_cmp (keys self.now)) }
    {
        let texts = self.texts();
        let least = Start::of_object(object);
        let mut tuples = Vec::new(alloc);
        let mut more = most;
        for (text, versions) in texts.range(least.as_str()) {
            let Some(_) = least.rest_of(text) else {
                return Ok(Some(tuples));
            };
            if more == 0 {
                return Ok(None);
            }
            more -= 1;
            if versions.stands_at(rev) {
                push_ref(&mut tuples, text)?;
            }
        }
        Ok(Some(tuples))
    }
}

fn push_ref<'a>(tuples: &mut Vec<TupleRef<'a>>, text: &'a str) -> Result<(), AllocError>
    requires { IsSpelling text.now }
    ensures { OnOk result (tuples.new.items ≡ tuples.old.items ++ tuple_of text.now ∷ []) }
{
    tuples.push(TupleRef::of(text))?;
    Ok(())
}
