//! Asking for what a change touches or newly brings in.
ghost use Rattle.std.specs.Prelude.{◌≡◌, ℕ, true, not, ◌&&◌, ◌||◌, ◌++◌, ◌∷◌, [], ◌⊎◌, nat_eq, List, IfOk, OnOk, OnErr};
ghost use Rattle.least_sets.specs.World.{Fact, has, arcs_of};
ghost use Rattle.least_sets.specs.Walks.{Adds, arc_of};
ghost use Rattle.region.specs.Sets.{IsWhole};
ghost use Rattle.region.specs.Rules.{fact_of, shape_of};
ghost use Rattle.region.specs.Steps.{Tells, AreTold, InEachTold};
ghost use Rattle.region.specs.Gathered.{stays, IsGathered, IsAskedOnce, IsAskedSome};
ghost use Rattle.region.specs.Walking.{IsVisit, IsWalkedTold, IsAskedSomeOf};
ghost use Rattle.region.specs.Sweeping.{names_told};

use crate::eval::push_named;
use crate::found::Found;
use crate::rule::Told;
use crate::sets::Sets;
use crate::sweeping::unreached;
use crate::touched::touched;
use idsets::IdSet;
use std::alloc::{AllocError, Global};

/// What was told of the touched and the new nodes, and whose rows are dropped: those of the touched nodes, and of
/// those that the roots no longer reach.
#[derive(Drop)]
pub struct Region {
    pub told: Vec<Told>,
    pub dropped: Vec<u64>,
}

/// Who knows the facts of nodes. Nodes may get their numbers while others are asked that name them, so what may be
/// told of a node grows.
pub trait Facts {
    /// What may be told of a node.
    ghost tells: { Self → ℕ → Fact → Type 0 };

    /// What asking may change.
    ghost later: { Self → Self → Type 0 };

    /// The nodes that were asked, in order.
    ghost asked: { Self → List ℕ };

    /// What is known of a node.
    fn ask(&mut self, alloc: Global, node: u64) -> Result<Told, AllocError>
        ensures later { later self.old self.new }
        ensures recorded { OnOk result (asked self.new ≡ asked self.old ++ node ∷ []) }
        ensures refused { OnErr result (asked self.new ≡ asked self.old) }
        ensures node { IfOk result (λ told. told.node ≡ node) }
        ensures told { IfOk result (λ told. tells self.new node (fact_of told)) };

    ghost stays: { (s : Self) → later s s };

    ghost further: { (a b c : Self) → later a b → later b c → later a c };

    ghost grows: { (a b : Self) (n : ℕ) (fact : Fact) → later a b → tells a n fact → tells b n fact };
}

// Whether a node stays as it was.
pub(crate) fn does_stay(old: &Sets, touched: &Found, node: u64) -> bool
    ensures { result ≡ stays old.now.rows touched.now node }
{
    !touched.contains(node) && old.is_kept(node)
}

// Adds what does not stay as it was.
fn add_needed(
    found: &mut Found,
    old: &Sets,
    touched: &Found,
    more: &[u64],
) -> Result<(), AllocError>
    ensures { OnOk result (Adds found.old found.new (λ u. has more.now u && not (stays old.now.rows touched.now u))) }
{
    found.is_distinct();
    for node in more {
        found.add_if(*node, !does_stay(old, touched, *node))?;
    }
    Ok(())
}

// Adds what a node told of names and does not stay as it was.
fn add_named(
    alloc: Global,
    found: &mut Found,
    old: &Sets,
    touched: &Found,
    told: &Told,
) -> Result<(), AllocError>
    ensures { OnOk result (Adds found.old found.new (λ u. has (arcs_of (shape_of told.now.rule)) u && not (stays old.now.rows touched.now u))) }
{
    let mut names = Vec::new(alloc);
    push_named(&mut names, &told.rule)?;
    add_needed(found, old, touched, &names)
}

// Asks for a node, and adds what it names.
fn visit<F: Facts>(
    alloc: Global,
    old: &Sets,
    touched: &Found,
    node: u64,
    facts: &mut F,
    found: &mut Found,
    told: &mut Vec<Told>,
) -> Result<(), AllocError>
    ensures later { F.later facts.old facts.new }
    ensures visit { OnOk result (IsVisit (F.tells facts.new) old.now.rows touched.now node found.old told.old.items (F.asked facts.old) found.new told.new.items (F.asked facts.new)) }
    ensures refused { OnErr result ((F.asked facts.new ≡ F.asked facts.old) ⊎ (F.asked facts.new ≡ F.asked facts.old ++ node ∷ [])) }
{
    let t = facts.ask(alloc, node)?;
    add_named(alloc, found, old, touched, &t)?;
    told.push(t)?;
    Ok(())
}

// Adds those of some nodes that are roots and do not stay as they were.
fn add_roots(
    found: &mut Found,
    old: &Sets,
    touched: &Found,
    roots: &IdSet,
    more: &[u64],
) -> Result<(), AllocError>
    ensures { OnOk result (Adds found.old found.new (λ u. has more.now u && (has roots.now u && not (stays old.now.rows touched.now u)))) }
{
    found.is_distinct();
    for node in more {
        found.add_if(
            *node,
            roots.contains(*node) && !does_stay(old, touched, *node),
        )?;
    }
    Ok(())
}

// The same of the touched nodes, the last ones first: those are the farthest from what changed, and lead to the others.
fn add_touched_roots(
    found: &mut Found,
    old: &Sets,
    touched: &Found,
    roots: &IdSet,
) -> Result<(), AllocError>
    ensures { OnOk result (Adds found.old found.new (λ u. has touched.now u && (has roots.now u && not (stays old.now.rows touched.now u)))) }
{
    found.is_distinct();
    let mut left = touched.len();
    while left > 0 {
        left -= 1;
        let node = touched.get(left);
        found.add_if(node, roots.contains(node) && !does_stay(old, touched, node))?;
    }
    Ok(())
}

// Walks from the new and the touched roots over what does not stay as it was, and asks for each node.
fn walk<F: Facts>(
    alloc: Global,
    old: &Sets,
    roots: &IdSet,
    turned: &[u64],
    touched: &Found,
    facts: &mut F,
) -> Result<Vec<Told>, AllocError>
    ensures later { F.later facts.old facts.new }
    ensures walked { IfOk result (λ told. IsWalkedTold (F.tells facts.new) old.now.rows touched.now roots.now turned.now told.items) }
    ensures asked { IfOk result (λ told. IsAskedOnce told.items (F.asked facts.old) (F.asked facts.new)) }
    ensures refused { OnErr result (InEachTold (F.tells facts.new) (λ world. IsAskedSomeOf world roots.now (stays old.now.rows touched.now) (F.asked facts.old) (F.asked facts.new))) }
{
    let mut found = Found::new(alloc);
    add_touched_roots(&mut found, old, touched, roots)?;
    add_roots(&mut found, old, touched, roots, turned)?;
    let mut told = Vec::new(alloc);
    let mut at = 0;
    while at < found.len() {
        let node = found.get(at);
        visit(alloc, old, touched, node, facts, &mut found, &mut told)?;
        at += 1;
    }
    Ok(told)
}

// The nodes that one told of names.
fn named_by(alloc: Global, told: &[Told]) -> Result<IdSet, AllocError>
    ensures { IfOk result (λ named. (m : ℕ) → has named m ≡ names_told told.now m) }
{
    let mut nodes = Vec::new(alloc);
    for t in told {
        push_named(&mut nodes, &t.rule)?;
    }
    Ok(IdSet::of(nodes))
}

/// Asks for each node that the roots reach and that is new or has a walk to a changed one. What stays as it was is
/// not walked over: no walk from it leads to a node that is touched or new. `turned` are the nodes that have become
/// roots, or are none any more; `changed` those of which other facts may be known than before.
///
/// It costs what is touched, what is asked for, and what leads to and from those nodes to which an arc or a mark as
/// a root was lost; nothing in what else is kept.
pub fn gather<F: Facts>(
    alloc: Global,
    old: &Sets,
    roots: &IdSet,
    turned: &[u64],
    changed: &[u64],
    facts: &mut F,
) -> Result<Region, AllocError>
    requires { IsWhole old.now }
    ensures later { F.later facts.old facts.new }
    ensures told { IfOk result (λ region. AreTold (F.tells facts.new) region.told.items) }
    ensures agree { IfOk result (λ region. (world : ℕ → Fact) × Tells world region.told.items) }
    ensures gathered { IfOk result (λ region. (world : ℕ → Fact) → Tells world region.told.items
        → IsGathered world old.now.rows roots.now turned.now changed.now region.told.items region.dropped.items) }
    ensures asked { IfOk result (λ region. IsAskedOnce region.told.items (F.asked facts.old) (F.asked facts.new)) }
    ensures refused { OnErr result (InEachTold (F.tells facts.new) (λ world. IsAskedSome world old.now.rows roots.now changed.now (F.asked facts.old) (F.asked facts.new))) }
{
    let mut touched = touched(alloc, old, changed)?;
    let told = walk(alloc, old, roots, turned, &touched, facts)?;
    let named = named_by(alloc, &told)?;
    let gone = unreached(alloc, old, &touched, &named, roots, turned)?;
    touched.add_all(gone.as_slice())?;
    Ok(Region {
        told,
        dropped: touched.into_list(),
    })
}
