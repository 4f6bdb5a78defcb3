//! What a group index is built from.

ghost use Rattle.std.specs.Prelude.{◌≡◌, ◌≤◌, ◌↔◌, true, false, length, ◌⊎◌, Any, Contains, IfOk, OnOk, IfSome, IfNone};
ghost use Rattle.std.specs.List.{AllWithin, list_all};
ghost use Rattle.std.specs.Ordering.{is_lt, is_le};
ghost use Rattle.std.specs.List.Sorted.{IsStrictlySortedBy};
ghost use Rattle.names.specs.Order.{node_cmp, tuple_cmp};
ghost use Rattle.names.specs.declared.node.Node.{Node};
ghost use Rattle.names.specs.declared.tuple.Tuple.{Tuple};
ghost use Rattle.meaning.specs.Admits.{admits};
ghost use Rattle.meaning.specs.Membership.{HasSet};
ghost use Rattle.meaning.specs.Snap.{set_of};
ghost use Rattle.meaning.specs.TupleSet as set;
ghost use Rattle.rows.specs.Retained.{AreAdmitted};
ghost use Rattle.leopard.specs.Input.{AreTuplesOf};

use crate::computed::push_computed;
use crate::walk::Arcs;
use config::Config;
use names::{Node, Subject, Tuple};
use rows::View;
use std::alloc::{AllocError, Global};
use std::marker::Model;

/// A configuration and the tuples of one snapshot, copied: what a group index is built from.
#[derive(Drop)]
pub struct Input {
    config: Config,
    tuples: Vec<Tuple>,
}

impl Model for Input {
    ghost use Rattle.meaning.specs.TupleSet as set;
    ghost use Rattle.meaning.specs.Snap.{Snap};
    ghost use Rattle.meaning.specs.inside.Codes.{coded_snap};
    ghost use Rattle.leopard.specs.Input.{AreTuplesOf};

    ghost Value = { Snap };

    ghost coded = { coded_snap };

    ghost view = { λ i. record { config = i.config; tuples = set.from_list i.tuples.items } };

    ghost invariant = { λ i. AreTuplesOf i.config i.tuples.items };
}

impl Input {
    /// The configuration and its tuples, such as pages of them that were read one behind the other. There is none where the
    /// tuples are not in ascending order, each once, or the configuration does not admit each. It takes no memory.
    pub fn of(config: Config, tuples: Vec<Tuple>) -> Option<Input>
        ensures config { IfSome result (λ input. input.config ≡ config) }
        ensures tuples { IfSome result (λ input. set.items input.tuples ≡ tuples.items) }
        ensures none { IfNone result (¬ (AreTuplesOf config tuples.items)) }
    {
        if !are_in_order(&tuples) {
            return None;
        }
        if !are_admitted(&config, &tuples) {
            return None;
        }
        Some(Input { config, tuples })
    }

    /// What the view holds, copied.
    pub fn copy(alloc: Global, view: &View) -> Result<Input, AllocError>
        ensures { IfOk result (λ input. input ≡ view.now) }
    {
        let config = view.config();
        let config = config.again(alloc)?;
        let tuples = view.tuples(alloc)?;
        Ok(Input { config, tuples })
    }

    pub fn config(&self) -> &Config
        ensures config { result.now ≡ self.now.config }
        ensures admitted { AreAdmitted self.now }
    {
        &self.config
    }

    /// The tuples, in order.
    pub fn tuples(&self) -> &[Tuple]
        ensures tuples { result.now ≡ set.items self.now.tuples }
        ensures ordered { IsStrictlySortedBy tuple_cmp result.now }
    {
        self.tuples.as_slice()
    }

    /// The nodes whose members the node's tuples name. No order is promised.
    pub fn usersets_of(&self, alloc: Global, node: &Node) -> Result<Vec<Node>, AllocError>
        ensures { IfOk result (λ v. (m : Node) → Contains v.items m ↔ HasSet self.now node.now m) }
    {
        usersets_in(alloc, self.tuples_of(node))
    }

    /// The node's tuples, found by halves.
    fn tuples_of(&self, node: &Node) -> &[Tuple]
        ensures { (t : Tuple) → Contains result.now t ↔ (Contains (set.items self.now.tuples) t × (t.node ≡ node.now)) }
    {
        tuples_at(self.tuples(), node)
    }
}

impl Arcs for Input {
    ghost snap = { λ s. s };

    fn ends_of(&self, alloc: Global, node: &Node) -> Result<Vec<Node>, AllocError> {
        let config = self.config();
        let relations = config.relations();
        let mut ends = self.usersets_of(alloc, node)?;
        let Some(place) = config.place_of(node) else {
            return Ok(ends);
        };
        push_computed(&mut ends, &node.object, &relations[place].rewrite)?;
        Ok(ends)
    }
}

/// Whether each tuple is below the next one.
fn are_in_order(tuples: &[Tuple]) -> bool
    ensures yes { result ≡ true → IsStrictlySortedBy tuple_cmp tuples.now }
    ensures no { result ≡ false → ¬ (IsStrictlySortedBy tuple_cmp tuples.now) }
{
    tuples.is_sorted_by(|tuple, next| tuple.cmp(next).is_lt())
}

/// Whether the configuration admits each tuple.
fn are_admitted(config: &Config, tuples: &[Tuple]) -> bool
    ensures { result ≡ list_all (admits config.now) tuples.now }
{
    for tuple in tuples {
        if !config.allows(tuple) {
            return false;
        }
    }
    true
}

/// The place of the first tuple of the node or of a later one, or the length.
fn place_from(tuples: &[Tuple], node: &Node) -> usize
    requires { IsStrictlySortedBy tuple_cmp tuples.now }
    ensures within { result ≤ length tuples.now }
    ensures before { AllWithin (λ t. is_lt (node_cmp t.node node.now) ≡ true) tuples.now 0 result }
    ensures after { AllWithin (λ t. is_lt (node_cmp t.node node.now) ≡ false) tuples.now result (length tuples.now) }
{
    tuples.partition_point(|tuple| tuple.node.cmp(node).is_lt())
}

/// The place of the first tuple of a later node, or the length.
fn place_past(tuples: &[Tuple], node: &Node) -> usize
    requires { IsStrictlySortedBy tuple_cmp tuples.now }
    ensures within { result ≤ length tuples.now }
    ensures before { AllWithin (λ t. is_le (node_cmp t.node node.now) ≡ true) tuples.now 0 result }
    ensures after { AllWithin (λ t. is_le (node_cmp t.node node.now) ≡ false) tuples.now result (length tuples.now) }
{
    tuples.partition_point(|tuple| tuple.node.cmp(node).is_le())
}

/// The tuples of the node, of tuples in order.
fn tuples_at<'a>(tuples: &'a [Tuple], node: &Node) -> &'a [Tuple]
    requires { IsStrictlySortedBy tuple_cmp tuples.now }
    ensures { (t : Tuple) → Contains result.now t ↔ (Contains tuples.now t × (t.node ≡ node.now)) }
{
    let start = place_from(tuples, node);
    let end = place_past(tuples, node);
    &tuples[start..end]
}

/// The nodes whose members the tuples name.
fn usersets_in(alloc: Global, tuples: &[Tuple]) -> Result<Vec<Node>, AllocError>
    ensures { IfOk result (λ v. (n : Node) → Contains v.items n ↔ Any (λ t. t.subject ≡ set_of n) tuples.now) }
{
    let mut nodes = Vec::new(alloc);
    for tuple in tuples {
        push_userset(&mut nodes, &tuple.subject)?;
    }
    Ok(nodes)
}

/// Adds the node whose members the subject is, if it is of a node.
fn push_userset(nodes: &mut Vec<Node>, subject: &Subject) -> Result<(), AllocError>
    ensures { OnOk result ((n : Node) → Contains nodes.new.items n ↔ (Contains nodes.old.items n ⊎ (subject.now ≡ set_of n))) }
{
    let Some(relation) = &subject.relation else {
        return Ok(());
    };
    let object = subject.object.again();
    let relation = relation.again();
    nodes.push(Node { object, relation })?;
    Ok(())
}
