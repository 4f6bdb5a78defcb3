//! Random changes of what a revision holds.

use crate::dice::Dice;
use crate::universe::count_of;
use config::Config;
use names::{Commit, EventKind, Items, Node, Op, OpKind, Refusal, Subject, Tuple};
use rows::events_of;
use snapshots::Snapshot;
use std::alloc::{AllocError, Global};

// Any object of the namespace, with the relation where there is one.
fn any_of(alloc: Global, dice: &mut Dice, kind: &str) -> Result<String, AllocError> {
    let number = dice.roll(count_of(kind));
    match kind.split_once('#') {
        Some((namespace, relation)) => format!(in alloc; "{namespace}:{number}#{relation}"),
        None => format!(in alloc; "{kind}:{number}"),
    }
}

fn any_tuple(alloc: Global, dice: &mut Dice, kinds: &str) -> Result<Tuple, Refusal> {
    let kind = dice.word(kinds);
    let Some((node, subject)) = kind.split_once('@') else {
        return Err(Refusal::Malformed);
    };
    let node = any_of(alloc, dice, node)?;
    let subject = any_of(alloc, dice, subject)?;
    let text = format!(in alloc; "{node}@{subject}")?;
    Tuple::parse(text.as_str())
}

// The tuple that names the node of this one, where this one names a userset: both close a cycle.
fn turned(tuple: &Tuple) -> Result<Option<Tuple>, AllocError> {
    let Some(relation) = &tuple.subject.relation else {
        return Ok(None);
    };
    Ok(Some(Tuple {
        node: Node {
            object: tuple.subject.object.clone()?,
            relation: relation.clone()?,
        },
        subject: Subject {
            object: tuple.node.object.clone()?,
            relation: Some(tuple.node.relation.clone()?),
        },
    }))
}

fn push(ops: &mut Vec<Op>, kind: OpKind, tuple: Tuple) -> Result<(), AllocError> {
    ops.push(Op { kind, tuple })?;
    Ok(())
}

// Puts the tuple, where it is admitted, is not there and is not changed yet.
fn put(snapshot: &Snapshot, ops: &mut Vec<Op>, tuple: Tuple) -> Result<(), AllocError> {
    let is_new = !snapshot.contains(&tuple) && ops.iter().all(|op| op.tuple != tuple);
    if is_new && snapshot.config().allows(&tuple) {
        push(ops, OpKind::Touch, tuple)?;
    }
    Ok(())
}

/// Deletes, few or many, and puts. A put may close a cycle.
pub(crate) fn any_changes(
    alloc: Global,
    snapshot: &Snapshot,
    kinds: &str,
    dice: &mut Dice,
) -> Result<Commit<Config>, Refusal> {
    let mut ops = Vec::new(alloc);
    let sides = if dice.roll(6) == 0 { 2 } else { 9 };
    for tuple in snapshot.tuples() {
        if dice.roll(sides) == 0 {
            push(&mut ops, OpKind::Delete, tuple.clone()?)?;
        } else if dice.roll(12) == 0 {
            if let Some(tuple) = turned(tuple)? {
                put(snapshot, &mut ops, tuple)?;
            }
        }
    }
    let puts = if snapshot.len() < 12 {
        10
    } else {
        dice.roll(6)
    };
    for _ in 0..puts {
        let tuple = any_tuple(alloc, dice, kinds)?;
        put(snapshot, &mut ops, tuple)?;
    }
    Ok(Commit::Tuples(events_of(Items::of(ops))?))
}

/// Deletes what the configuration does not admit.
pub(crate) fn clearing(
    alloc: Global,
    snapshot: &Snapshot,
    config: &Config,
) -> Result<Commit<Config>, Refusal> {
    let mut ops = Vec::new(alloc);
    for tuple in snapshot.tuples() {
        if !config.allows(tuple) {
            push(&mut ops, OpKind::Delete, tuple.clone()?)?;
        }
    }
    Ok(Commit::Tuples(events_of(Items::of(ops))?))
}

/// Makes the commit's changes.
pub(crate) fn follow(
    alloc: Global,
    snapshot: &mut Snapshot,
    commit: &Commit<Config>,
) -> Result<(), AllocError> {
    match commit {
        Commit::Config(config) => snapshot.set_config(config.again(alloc)?),
        Commit::Tuples(events) => {
            for event in events.as_slice() {
                match event.kind {
                    EventKind::Put => snapshot.insert(event.tuple.clone()?)?,
                    EventKind::Del => snapshot.remove(&event.tuple),
                }
            }
        }
    }
    Ok(())
}
