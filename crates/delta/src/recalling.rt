//! What is asked for the groups of which other facts may be known than before.
ghost use Rattle.std.specs.Prelude.{◌≡◌, ◌++◌, ◌∷◌, ℕ, [], true, false, ◌⊎◌, IfOk, IfSome, IfNone, OnOk, OnErr};
ghost use Rattle.least_sets.specs.World.{Fact, has};
ghost use Rattle.least_sets.specs.Groups.{groups};
ghost use Rattle.region.specs.Gathered.{IsAskedOnce, IsGathered};
ghost use Rattle.region.specs.Rules.{fact_of};
ghost use Rattle.region.specs.Sets.{IsWhole};
ghost use Rattle.region.specs.Steps.{AreTold, Tells};
ghost use Rattle.region.specs.Tables.{arcs_or_none, kept, row_of};
ghost use Rattle.delta.specs.Telling.{IsMore, MayTell};
ghost use Rattle.delta.specs.inside.Handing.{IsAnew, WereOf};

use crate::arcs::CountedArcs;
use crate::telling::{ask_for, told_again};
use idsets::{IdSet, Ids};
use names::Node;
use region::{Facts, Region, Sets, Told, gather};
use std::alloc::{AllocError, Global};

/// What tells the arcs, what is kept, and the groups of which other facts may be told than are kept. Of the others that are
/// kept what is kept is told, and they are not handed on. All that were asked for are counted. Whether one was refused is
/// noted, since it may have been handed on and is not counted then.
#[derive(Drop)]
struct Recalling<'a, A: CountedArcs> {
    arcs: &'a mut A,
    nodes: &'a mut Ids<Node>,
    asked: &'a mut Vec<u64>,
    sets: &'a Sets,
    changed: &'a IdSet,
    refused: bool,
}

impl<'a, A: CountedArcs> Recalling<'a, A> {
    /// The arcs of a group that is kept, where no others may be told.
    fn arcs_of(&self, node: u64) -> Option<&IdSet>
        ensures some { IfSome result (λ arcs. (kept self.now.sets.now.rows node ≡ true) × (has self.now.changed.now node ≡ false)
            × (arcs.now ≡ arcs_or_none (row_of self.now.sets.now.rows node))) }
        ensures none { IfNone result (IsAnew self.now.sets.now.rows self.now.changed.now node) }
    {
        if self.changed.contains(node) {
            return None;
        }
        match self.sets.rows.get(&node) {
            Some(Some(row)) => Some(&row.arcs),
            _ => None,
        }
    }

    /// What is told of a group.
    fn tell(&mut self, alloc: Global, node: u64) -> Result<Told, AllocError>
        ensures same_arcs { self.new.arcs.ghost_name ≡ self.old.arcs.ghost_name }
        ensures same_nodes { self.new.nodes.ghost_name ≡ self.old.nodes.ghost_name }
        ensures same_asked { self.new.asked.ghost_name ≡ self.old.asked.ghost_name }
        ensures snap { A.snap self.new.arcs.now ≡ A.snap self.old.arcs.now }
        ensures sets { self.new.sets.now ≡ self.old.sets.now }
        ensures changed { self.new.changed.now ≡ self.old.changed.now }
        ensures more { IsMore self.old.nodes.now self.new.nodes.now }
        ensures refused { self.new.refused ≡ self.old.refused }
        ensures counted { OnOk result (self.new.asked.now.items ≡ self.old.asked.now.items ++ node ∷ []) }
        ensures not_counted { OnErr result (self.new.asked.now.items ≡ self.old.asked.now.items) }
        ensures handed { OnOk result (WereOf self.new.nodes.now self.old.sets.now.rows self.old.changed.now self.old.asked.now.items self.new.asked.now.items (A.asked self.old.arcs.now) (A.asked self.new.arcs.now)) }
        ensures node { IfOk result (λ told. told.node ≡ node) }
        ensures told { IfOk result (λ told. MayTell (A.snap self.new.arcs.now) self.new.nodes.now node (fact_of told)
            ⊎ ((kept self.new.sets.now.rows node ≡ true) × (has self.new.changed.now node ≡ false) × (fact_of told ≡ groups (λ _. arcs_or_none (row_of self.new.sets.now.rows node)) node))) }
    {
        let Some(arcs) = self.arcs_of(node) else {
            let told = ask_for(alloc, self.arcs, self.nodes, node)?;
            self.asked.push(node)?;
            return Ok(told);
        };
        let told = told_again(alloc, node, arcs)?;
        self.asked.push(node)?;
        Ok(told)
    }

    /// Gathers what a change touches.
    fn gather(&mut self, alloc: Global, roots: &IdSet, turned: &[u64]) -> Result<Region, AllocError>
        requires { IsWhole self.old.sets.now }
        ensures same_arcs { self.new.arcs.ghost_name ≡ self.old.arcs.ghost_name }
        ensures same_nodes { self.new.nodes.ghost_name ≡ self.old.nodes.ghost_name }
        ensures same_asked { self.new.asked.ghost_name ≡ self.old.asked.ghost_name }
        ensures snap { A.snap self.new.arcs.now ≡ A.snap self.old.arcs.now }
        ensures more { IsMore self.old.nodes.now self.new.nodes.now }
        ensures told { IfOk result (λ region. AreTold (λ n fact. MayTell (A.snap self.old.arcs.now) self.new.nodes.now n fact
            ⊎ ((kept self.old.sets.now.rows n ≡ true) × (has self.old.changed.now n ≡ false) × (fact ≡ groups (λ _. arcs_or_none (row_of self.old.sets.now.rows n)) n))) region.told.items) }
        ensures agree { IfOk result (λ region. (world : ℕ → Fact) × Tells world region.told.items) }
        ensures gathered { IfOk result (λ region. (world : ℕ → Fact) → Tells world region.told.items
            → IsGathered world self.old.sets.now.rows roots.now turned.now self.old.changed.now region.told.items region.dropped.items) }
        ensures asked { IfOk result (λ region. IsAskedOnce region.told.items self.old.asked.now.items self.new.asked.now.items) }
        ensures handed { self.new.refused ≡ false → WereOf self.new.nodes.now self.old.sets.now.rows self.old.changed.now self.old.asked.now.items self.new.asked.now.items (A.asked self.old.arcs.now) (A.asked self.new.arcs.now) }
    {
        let changed = self.changed.as_slice();
        gather(alloc, self.sets, roots, turned, changed, self)
    }
}

impl<'a, A: CountedArcs> Facts for Recalling<'a, A> {
    ghost use Rattle.std.specs.Prelude.{◌≡◌, ◌⊎◌, List, ℕ, true, false};
    ghost use Rattle.std.proofs.Common.{◌∙◌, refl, sym, ap, subst, ⊎_elim, inl, inr};
    ghost use Rattle.meaning.specs.Snap.{Snap};
    ghost use Rattle.region.specs.declared.sets.Sets.{Sets as SetsValue};
    ghost use Rattle.least_sets.specs.World.{has};
    ghost use Rattle.least_sets.specs.Groups.{groups};
    ghost use Rattle.region.specs.Tables.{arcs_or_none, kept, row_of};
    ghost use Rattle.delta.specs.Telling.{IsMore, MayTell};
    ghost use Rattle.delta.specs.inside.Growing.{may_more, more_none, more_both};
    ghost use Rattle.delta.specs.inside.Handing.{WereOf, were_none, were_both};

    ghost tells = { λ f n fact. MayTell (A.snap f.arcs.now) f.nodes.now n fact
        ⊎ ((kept f.sets.now.rows n ≡ true) × (has f.changed.now n ≡ false) × (fact ≡ groups (λ _. arcs_or_none (row_of f.sets.now.rows n)) n)) };

    ghost later = { λ a b. (b.arcs.ghost_name ≡ a.arcs.ghost_name) × (b.nodes.ghost_name ≡ a.nodes.ghost_name) × (b.asked.ghost_name ≡ a.asked.ghost_name)
        × (A.snap b.arcs.now ≡ A.snap a.arcs.now) × (b.sets.now ≡ a.sets.now) × (b.changed.now ≡ a.changed.now) × IsMore a.nodes.now b.nodes.now
        × (b.refused ≡ false → (a.refused ≡ false) × WereOf b.nodes.now b.sets.now.rows b.changed.now a.asked.now.items b.asked.now.items (A.asked a.arcs.now) (A.asked b.arcs.now)) };

    ghost asked = { λ f. f.asked.now.items };

    fn ask(&mut self, alloc: Global, node: u64) -> Result<Told, AllocError> {
        let told = self.tell(alloc, node);
        if told.is_err() {
            self.refused = true;
        }
        told
    }

    ghost stays = { λ s. (refl, refl, refl, refl, refl, refl, more_none s.nodes.now, λ no. (no, were_none s.nodes.now s.sets.now.rows s.changed.now s.asked.now.items (A.asked s.arcs.now))) };

    ghost further = { λ a b c one more. (
      more.0 ∙ one.0,
      more.1 ∙ one.1,
      more.2 ∙ one.2,
      more.3 ∙ one.3,
      more.4 ∙ one.4,
      more.5 ∙ one.5,
      more_both a.nodes.now b.nodes.now c.nodes.now one.6 more.6,
      λ no. (
        (one.7 (more.7 no).0).0,
        were_both b.nodes.now c.nodes.now b.sets.now.rows c.sets.now.rows b.changed.now c.changed.now a.asked.now.items b.asked.now.items c.asked.now.items (A.asked a.arcs.now) (A.asked b.arcs.now) (A.asked c.arcs.now)
            more.6 (ap (λ (s : SetsValue). s.rows) more.4) more.5 (one.7 (more.7 no).0).1 (more.7 no).1,
      ),
    ) };

    ghost grows = { λ a b n fact later tells. ⊎_elim
        (λ told. inl (may_more (A.snap b.arcs.now) a.nodes.now b.nodes.now n fact later.6
        (subst (λ (S : Snap). MayTell S a.nodes.now n fact) (sym later.3) told)))
        (λ known. inr (subst (λ (s : SetsValue). (kept s.rows n ≡ true) × (has b.changed.now n ≡ false) × (fact ≡ groups (λ _. arcs_or_none (row_of s.rows n)) n)) (sym later.4)
        (subst (λ (ids : List ℕ). (kept a.sets.now.rows n ≡ true) × (has ids n ≡ false) × (fact ≡ groups (λ _. arcs_or_none (row_of a.sets.now.rows n)) n)) (sym later.5) known)))
        tells };
}

/// What was gathered, and who was asked for, in order.
#[derive(Drop)]
pub(crate) struct Gathering {
    pub(crate) region: Region,
    pub(crate) asked: Vec<u64>,
}

/// Gathers what a change touches. More nodes may have numbers then, also for want of memory.
pub(crate) fn gathered<A: CountedArcs>(
    alloc: Global,
    arcs: &mut A,
    nodes: &mut Ids<Node>,
    sets: &Sets,
    roots: &IdSet,
    turned: &[u64],
    changed: &IdSet,
) -> Result<Gathering, AllocError>
    requires { IsWhole sets.now }
    ensures snap { A.snap arcs.new ≡ A.snap arcs.old }
    ensures more { IsMore nodes.old nodes.new }
    ensures told { IfOk result (λ got. AreTold (λ n fact. MayTell (A.snap arcs.old) nodes.new n fact
        ⊎ ((kept sets.now.rows n ≡ true) × (has changed.now n ≡ false) × (fact ≡ groups (λ _. arcs_or_none (row_of sets.now.rows n)) n))) got.region.told.items) }
    ensures agree { IfOk result (λ got. (world : ℕ → Fact) × Tells world got.region.told.items) }
    ensures gathered { IfOk result (λ got. (world : ℕ → Fact) → Tells world got.region.told.items
        → IsGathered world sets.now.rows roots.now turned.now changed.now got.region.told.items got.region.dropped.items) }
    ensures asked { IfOk result (λ got. IsAskedOnce got.region.told.items [] got.asked.items) }
    ensures handed { IfOk result (λ got. WereOf nodes.new sets.now.rows changed.now [] got.asked.items (A.asked arcs.old) (A.asked arcs.new)) }
{
    let mut asked = Vec::new(alloc);
    let mut facts = Recalling {
        arcs,
        nodes,
        asked: &mut asked,
        sets,
        changed,
        refused: false,
    };
    let region = facts.gather(alloc, roots, turned)?;
    // Never so: what is refused ends the gathering.
    if facts.refused {
        return Err(AllocError);
    }
    Ok(Gathering { region, asked })
}
