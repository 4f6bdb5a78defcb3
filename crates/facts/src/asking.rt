//! A view that is asked for its nodes.
ghost use Rattle.std.specs.Prelude.{◌≡◌, []};
ghost use Rattle.meaning.specs.Reads.{IsValid};

use crate::numbers::Numbers;
use crate::telling::tell;
use crate::valid::each_view_is_valid;
use region::{Facts, Told};
use rows::View;
use std::alloc::{AllocError, Global};
use std::hash::RandomState;
use std::marker::Model;
use std::mem::swap;

/// A view, the numbers of its nodes and users as far as they were seen, and who was asked for.
#[derive(Drop)]
pub struct ViewFacts<'a> {
    view: &'a View<'a>,
    numbers: Numbers,
    asked: Vec<u64>,
}

impl<'a> Model for ViewFacts<'a> {
    ghost use Rattle.facts.specs.Asking.{Asking};
    ghost use Rattle.facts.specs.inside.Codes.{coded_asking};

    ghost Value = { Asking };

    ghost coded = { coded_asking };

    ghost view = { λ f. record { snap = f.view.now; nodes = f.numbers.nodes; users = f.numbers.users; asked = f.asked.items } };
}

impl<'a> ViewFacts<'a> {
    /// Nothing has a number, and nobody was asked. Names are hashed under this key. It takes no memory.
    pub fn of(alloc: Global, keys: RandomState, view: &'a View<'a>) -> ViewFacts<'a>
        ensures { result ≡ record { snap = view.now; nodes = []; users = []; asked = [] } }
    {
        ViewFacts {
            view,
            numbers: Numbers::new(alloc, keys),
            asked: Vec::new(alloc),
        }
    }

    /// Takes the numbers of another in exchange for its own.
    pub fn exchange(&mut self, numbers: &mut Numbers)
        ensures taken { self.new ≡ record { snap = self.old.snap; nodes = numbers.old.nodes; users = numbers.old.users; asked = self.old.asked } }
        ensures nodes { numbers.new.nodes ≡ self.old.nodes }
        ensures users { numbers.new.users ≡ self.old.users }
    {
        swap(&mut self.numbers, numbers);
    }

    /// The numbers of the nodes that were asked, in order.
    pub fn asked(&self) -> &[u64]
        ensures { result.now ≡ self.now.asked }
    {
        &self.asked
    }

    /// What is told is that of a valid snapshot.
    pub fn is_of_a_valid_view(&self)
        ensures { IsValid self.now.snap }
    {
        each_view_is_valid(self.view);
    }
}

impl<'a> Facts for ViewFacts<'a> {
    ghost use Rattle.std.proofs.Common.{◌∙◌, refl, sym, subst};
    ghost use Rattle.meaning.specs.Snap.{Snap};
    ghost use Rattle.facts.specs.Telling.{MayTell, IsLater};
    ghost use Rattle.facts.specs.inside.Growing.{may_more, later_stays, later_further};

    ghost tells = { λ f n fact. MayTell f.snap f.nodes f.users n fact };

    ghost later = { λ a b. (b.snap ≡ a.snap) × IsLater a.nodes b.nodes a.users b.users };

    ghost asked = { λ f. f.asked };

    /// A number that no node has is refused. For want of memory, or where it is refused, some more nodes and users may
    /// have numbers.
    fn ask(&mut self, alloc: Global, node: u64) -> Result<Told, AllocError> {
        let told = tell(alloc, self.view, &mut self.numbers, node)?;
        self.asked.push(node)?;
        Ok(told)
    }

    ghost stays = { λ s. (refl, later_stays s.nodes s.users) };

    ghost further = { λ a b c one more. (more.0 ∙ one.0, later_further a.nodes b.nodes c.nodes a.users b.users c.users one.1 more.1) };

    ghost grows = { λ a b n fact later tells. may_more b.snap a.nodes b.nodes a.users b.users n fact later.1
        (subst (λ (S : Snap). MayTell S a.nodes a.users n fact) (sym later.0) tells) };
}
