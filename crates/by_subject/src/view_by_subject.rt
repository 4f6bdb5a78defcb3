//! Views with their tuples by their subjects.
ghost use Rattle.std.specs.Prelude.{◌≡◌, IfOk, IfSome};
ghost use Rattle.rows.specs.Tuplesets.{page};
ghost use Rattle.by_subject.specs.Complete.{Covers};

use crate::by_subject::BySubject;
use crate::limits::most_for;
use names::Tuple;
use rows::{Tupleset, View};
use std::alloc::{AllocError, Global};
use std::marker::Model;

/// What one retained revision holds, with its tuples by their subjects where they are kept. Contracts see the snapshot.
#[derive(Drop)]
pub struct ViewBySubject<'a> {
    view: &'a View<'a>,
    found: Option<&'a BySubject>,
}

impl<'a> Model for ViewBySubject<'a> {
    ghost use Rattle.std.specs.Prelude.{IfSome};
    ghost use Rattle.meaning.specs.Snap.{Snap};
    ghost use Rattle.meaning.specs.inside.Codes.{coded_snap};
    ghost use Rattle.by_subject.specs.Complete.{Covers};

    ghost Value = { Snap };

    ghost coded = { coded_snap };

    ghost view = { λ s. s.view.now };

    ghost invariant = { λ s. IfSome s.found (λ found. Covers found.now s.view.now.tuples) };
}

impl<'a> ViewBySubject<'a> {
    pub fn of(view: &'a View<'a>, found: Option<&'a BySubject>) -> ViewBySubject<'a>
        requires { IfSome found (λ found. Covers found.now view.now.tuples) }
        ensures { result ≡ view.now }
    {
        ViewBySubject { view, found }
    }

    /// The view alone.
    pub fn view(&self) -> &'a View<'a>
        ensures { result.now ≡ self.now }
    {
        self.view
    }

    /// The tuples by their subjects, where they are kept.
    pub fn found(&self) -> Option<&'a BySubject>
        ensures { IfSome result (λ found. Covers found.now self.now.tuples) }
    {
        self.found
    }

    /// The page of a tupleset. One of any object is read by its subject, where tuples are kept so and at most [`most_for`] its
    /// limit name that; else the tuples of its namespace are gone over, as in the view's own read.
    pub fn read(&self, alloc: Global, asked: &Tupleset) -> Result<Vec<Tuple>, AllocError>
        ensures { IfOk result (λ v. v.items ≡ page asked.now self.now.tuples) }
    {
        match self.read_by_subject(alloc, asked)? {
            Some(page) => Ok(page),
            None => self.view().read(alloc, asked),
        }
    }

    fn read_by_subject(
        &self,
        alloc: Global,
        asked: &Tupleset,
    ) -> Result<Option<Vec<Tuple>>, AllocError>
        ensures { IfOk result (λ o. IfSome o (λ v. v.items ≡ page asked.now self.now.tuples)) }
    {
        let (None, Some(subject), Some(found)) = (&asked.object, &asked.subject, self.found) else {
            return Ok(None);
        };
        found.read(alloc, self.view, asked, subject, most_for(asked.limit))
    }
}
