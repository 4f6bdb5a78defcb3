//! What is remembered of nodes is told again, and others are asked for.
ghost use Rattle.std.specs.Prelude.{◌≡◌, ◌++◌, ◌∷◌, ℕ, [], false, IfOk, OnOk, OnErr};
ghost use Rattle.least_sets.specs.World.{Fact};
ghost use Rattle.region.specs.Gathered.{IsAskedOnce, IsGathered};
ghost use Rattle.region.specs.Rules.{fact_of};
ghost use Rattle.region.specs.Sets.{IsWhole};
ghost use Rattle.region.specs.Steps.{AreTold, Tells};
ghost use Rattle.facts.specs.Telling.{IsLater};
ghost use Rattle.hot.specs.inside.Passing.{WerePassed};
ghost use Rattle.hot.specs.inside.Remembering.{MayRecall};

use crate::nodes::CountedNodes;
use facts::Numbers;
use idsets::IdSet;
use region::{Facts, Region, Sets, Told, gather};
use std::alloc::{AllocError, Global};
use std::collections::BTreeMap;

/// What tells of nodes, the numbers, and what is remembered: a node of which nothing is, is asked for. All are counted either
/// way. Whether one was refused is noted, since it may have been asked for and is not counted then.
#[derive(Drop)]
struct Recalling<'a, F: CountedNodes> {
    facts: &'a mut F,
    numbers: &'a mut Numbers,
    asked: &'a mut Vec<u64>,
    told: &'a BTreeMap<u64, Told>,
    refused: bool,
}

impl<'a, F: CountedNodes> Recalling<'a, F> {
    // What is told of a node.
    fn tell(&mut self, alloc: Global, node: u64) -> Result<Told, AllocError>
        ensures same_facts { self.new.facts.ghost_name ≡ self.old.facts.ghost_name }
        ensures same_numbers { self.new.numbers.ghost_name ≡ self.old.numbers.ghost_name }
        ensures same_asked { self.new.asked.ghost_name ≡ self.old.asked.ghost_name }
        ensures snap { F.snap self.new.facts.now ≡ F.snap self.old.facts.now }
        ensures memory { self.new.told.now ≡ self.old.told.now }
        ensures later { IsLater self.old.numbers.now.nodes self.new.numbers.now.nodes self.old.numbers.now.users self.new.numbers.now.users }
        ensures refused { self.new.refused ≡ self.old.refused }
        ensures counted { OnOk result (self.new.asked.now.items ≡ self.old.asked.now.items ++ node ∷ []) }
        ensures not_counted { OnErr result (self.new.asked.now.items ≡ self.old.asked.now.items) }
        ensures passed { OnOk result (WerePassed self.new.numbers.now.nodes self.old.asked.now.items self.new.asked.now.items (F.asked self.old.facts.now) (F.asked self.new.facts.now)) }
        ensures node { IfOk result (λ told. told.node ≡ node) }
        ensures told { IfOk result (λ told.
            MayRecall (F.snap self.new.facts.now) self.new.told.now self.new.numbers.now.nodes self.new.numbers.now.users node (fact_of told)) }
    {
        let Some(told) = self.told.get(&node) else {
            let told = self.facts.tell_of(alloc, self.numbers, node)?;
            self.asked.push(node)?;
            return Ok(told);
        };
        let told = again_of(alloc, told, node)?;
        self.asked.push(node)?;
        Ok(told)
    }

    // Gathers what a change touches.
    fn gather(
        &mut self,
        alloc: Global,
        sets: &Sets,
        roots: &IdSet,
        turned: &[u64],
        changed: &[u64],
    ) -> Result<Region, AllocError>
        requires { IsWhole sets.now }
        ensures same_facts { self.new.facts.ghost_name ≡ self.old.facts.ghost_name }
        ensures same_numbers { self.new.numbers.ghost_name ≡ self.old.numbers.ghost_name }
        ensures same_asked { self.new.asked.ghost_name ≡ self.old.asked.ghost_name }
        ensures snap { F.snap self.new.facts.now ≡ F.snap self.old.facts.now }
        ensures later { IsLater self.old.numbers.now.nodes self.new.numbers.now.nodes self.old.numbers.now.users self.new.numbers.now.users }
        ensures told { IfOk result (λ region. AreTold (MayRecall (F.snap self.old.facts.now) self.old.told.now self.new.numbers.now.nodes self.new.numbers.now.users) region.told.items) }
        ensures agree { IfOk result (λ region. (world : ℕ → Fact) × Tells world region.told.items) }
        ensures gathered { IfOk result (λ region. (world : ℕ → Fact) → Tells world region.told.items
            → IsGathered world sets.now.rows roots.now turned.now changed.now region.told.items region.dropped.items) }
        ensures asked { IfOk result (λ region. IsAskedOnce region.told.items self.old.asked.now.items self.new.asked.now.items) }
        ensures passed { self.new.refused ≡ false → WerePassed self.new.numbers.now.nodes self.old.asked.now.items self.new.asked.now.items (F.asked self.old.facts.now) (F.asked self.new.facts.now) }
    {
        gather(alloc, sets, roots, turned, changed, self)
    }
}

// The same, told of a node.
fn again_of(alloc: Global, told: &Told, node: u64) -> Result<Told, AllocError>
    ensures node { IfOk result (λ again. again.node ≡ node) }
    ensures fact { IfOk result (λ again. fact_of again ≡ fact_of told.now) }
{
    let Told {
        level,
        rule,
        own,
        ..
    } = told.again(alloc)?;
    Ok(Told {
        node,
        level,
        rule,
        own,
    })
}

impl<'a, F: CountedNodes> Facts for Recalling<'a, F> {
    ghost use Rattle.std.specs.Prelude.{◌≡◌, false};
    ghost use Rattle.std.proofs.Common.{◌∙◌, refl};
    ghost use Rattle.facts.specs.Telling.{IsLater};
    ghost use Rattle.facts.specs.inside.Growing.{later_stays, later_further};
    ghost use Rattle.hot.specs.inside.Passing.{WerePassed, passed_none, passed_both};
    ghost use Rattle.hot.specs.inside.Remembering.{MayRecall, recall_more};

    ghost tells = { λ f n fact. MayRecall (F.snap f.facts.now) f.told.now f.numbers.now.nodes f.numbers.now.users n fact };

    ghost later = { λ a b. (b.facts.ghost_name ≡ a.facts.ghost_name) × (b.numbers.ghost_name ≡ a.numbers.ghost_name) × (b.asked.ghost_name ≡ a.asked.ghost_name)
        × (F.snap b.facts.now ≡ F.snap a.facts.now) × (b.told.now ≡ a.told.now) × IsLater a.numbers.now.nodes b.numbers.now.nodes a.numbers.now.users b.numbers.now.users
        × (b.refused ≡ false → (a.refused ≡ false) × WerePassed b.numbers.now.nodes a.asked.now.items b.asked.now.items (F.asked a.facts.now) (F.asked b.facts.now)) };

    ghost asked = { λ f. f.asked.now.items };

    fn ask(&mut self, alloc: Global, node: u64) -> Result<Told, AllocError> {
        let told = self.tell(alloc, node);
        if told.is_err() {
            self.refused = true;
        }
        told
    }

    ghost stays = { λ s. (refl, refl, refl, refl, refl, later_stays s.numbers.now.nodes s.numbers.now.users, λ no. (no, passed_none s.numbers.now.nodes s.asked.now.items (F.asked s.facts.now))) };

    ghost further = { λ a b c one more. (
      more.0 ∙ one.0,
      more.1 ∙ one.1,
      more.2 ∙ one.2,
      more.3 ∙ one.3,
      more.4 ∙ one.4,
      later_further a.numbers.now.nodes b.numbers.now.nodes c.numbers.now.nodes a.numbers.now.users b.numbers.now.users c.numbers.now.users one.5 more.5,
      λ no. (
        (one.6 (more.6 no).0).0,
        passed_both b.numbers.now.nodes c.numbers.now.nodes a.asked.now.items b.asked.now.items c.asked.now.items (F.asked a.facts.now) (F.asked b.facts.now) (F.asked c.facts.now)
            more.5.nodes_grew (one.6 (more.6 no).0).1 (more.6 no).1,
      ),
    ) };

    ghost grows = { λ a b n fact later tells. recall_more (F.snap a.facts.now) (F.snap b.facts.now) a.told.now b.told.now
        a.numbers.now.nodes b.numbers.now.nodes a.numbers.now.users b.numbers.now.users n fact later.3 later.4 later.5 tells };
}

/// What was gathered, and who was counted, in order.
#[derive(Drop)]
pub(crate) struct Harvest {
    pub(crate) region: Region,
    pub(crate) asked: Vec<u64>,
}

/// Gathers what a change touches. More nodes and users may have numbers then, also for want of memory.
pub(crate) fn gathered<F: CountedNodes>(
    alloc: Global,
    facts: &mut F,
    numbers: &mut Numbers,
    told: &BTreeMap<u64, Told>,
    sets: &Sets,
    roots: &IdSet,
    turned: &[u64],
    changed: &[u64],
) -> Result<Harvest, AllocError>
    requires { IsWhole sets.now }
    ensures snap { F.snap facts.new ≡ F.snap facts.old }
    ensures later { IsLater numbers.old.nodes numbers.new.nodes numbers.old.users numbers.new.users }
    ensures told { IfOk result (λ got. AreTold (MayRecall (F.snap facts.old) told.now numbers.new.nodes numbers.new.users) got.region.told.items) }
    ensures agree { IfOk result (λ got. (world : ℕ → Fact) × Tells world got.region.told.items) }
    ensures gathered { IfOk result (λ got. (world : ℕ → Fact) → Tells world got.region.told.items
        → IsGathered world sets.now.rows roots.now turned.now changed.now got.region.told.items got.region.dropped.items) }
    ensures asked { IfOk result (λ got. IsAskedOnce got.region.told.items [] got.asked.items) }
    ensures passed { IfOk result (λ got. WerePassed numbers.new.nodes [] got.asked.items (F.asked facts.old) (F.asked facts.new)) }
{
    let mut asked = Vec::new(alloc);
    let mut recalling = Recalling {
        facts,
        numbers,
        asked: &mut asked,
        told,
        refused: false,
    };
    let region = recalling.gather(alloc, sets, roots, turned, changed)?;
    // Never so: what is refused ends the gathering.
    if recalling.refused {
        return Err(AllocError);
    }
    Ok(Harvest { region, asked })
}
