//! What a node's tuples name.
ghost use Rattle.std.specs.Prelude.{◌≡◌, ◌++◌, filter, IfOk, OnOk};
ghost use Rattle.std.specs.List.Sorted.{IsStrictlySortedBy};
ghost use Rattle.std.specs.Option.{option_to_list};
ghost use Rattle.names.specs.Order.{tuple_cmp};
ghost use Rattle.versions.specs.Named.{objects_in, nodes_in};
ghost use Rattle.tuple_keys.specs.Named.{object_in, node_in, is_within};
ghost use Rattle.versions.specs.Versions.{AreRising, keys, tuples_at};
ghost use Rattle.tuple_keys.specs.Named.{is_of};

use crate::version_map::VersionMap;
use names::{Name, Node, Object};
use std::alloc::{AllocError, Global};
use tuple_keys::{Start, TupleRef};

impl VersionMap {
    /// The objects that the node's tuples name which stand at a revision.
    pub fn objects_of(
        &self,
        alloc: Global,
        rev: u64,
        node: &Node,
    ) -> Result<Vec<Object>, AllocError>
        requires { AreRising self.now }
        ensures found { IfOk result (λ v. v.items ≡ objects_in (filter (is_of node.now) (tuples_at self.now rev))) }
        ensures ordered { IfOk result (λ v. IsStrictlySortedBy tuple_cmp (keys self.now)) }
    {
        let texts = self.texts();
        let least = Start::of_node(node);
        let mut objects = Vec::new(alloc);
        for (text, versions) in texts.range(least.as_str()) {
            let Some(_) = least.rest_of(text) else {
                return Ok(objects);
            };
            if versions.stands_at(rev) {
                push_object(&mut objects, &TupleRef::of(text))?;
            }
        }
        Ok(objects)
    }

    /// Adds the nodes of the namespace whose members those of the node's tuples name that stand at a
    /// revision. Subjects of other namespaces are not gone over. For want of memory it may have added some.
    pub fn usersets_in(
        &self,
        alloc: Global,
        rev: u64,
        node: &Node,
        namespace: &Name,
        nodes: &mut Vec<Node>,
    ) -> Result<(), AllocError>
        requires { AreRising self.now }
        ensures found { OnOk result (nodes.new.items ≡ nodes.old.items
            ++ nodes_in (filter (is_within node.now namespace.now) (tuples_at self.now rev))) }
        ensures ordered { OnOk result (IsStrictlySortedBy tuple_cmp (keys self.now)) }
    {
        let texts = self.texts();
        let least = Start::of_namespace(node, namespace);
        for (text, versions) in texts.range(least.as_str()) {
            let Some(_) = least.rest_of(text) else {
                return Ok(());
            };
            if versions.stands_at(rev) {
                push_node(nodes, &TupleRef::of(text))?;
            }
        }
        Ok(())
    }
}

/// Adds the object that the tuple names, where it names one.
fn push_object(objects: &mut Vec<Object>, tuple: &TupleRef<'_>) -> Result<(), AllocError>
    ensures { OnOk result (objects.new.items ≡ objects.old.items
        ++ option_to_list (object_in tuple.now.subject)) }
{
    let subject = tuple.subject();
    if subject.relation().is_none() {
        objects.push(subject.object())?;
    }
    Ok(())
}

/// Adds the node whose members the tuple names, where it names those of one.
fn push_node(nodes: &mut Vec<Node>, tuple: &TupleRef<'_>) -> Result<(), AllocError>
    ensures { OnOk result (nodes.new.items ≡ nodes.old.items
        ++ option_to_list (node_in tuple.now.subject)) }
{
    if let Some(node) = tuple.subject().node() {
        nodes.push(node)?;
    }
    Ok(())
}
