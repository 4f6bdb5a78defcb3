//! Rules joined.
ghost use Rattle.std.specs.Prelude.{◌≡◌, [], map, IfOk};
ghost use Rattle.least_sets.specs.World.{Own, AnyOf, Reads, Either, Both, Except};
ghost use Rattle.region.specs.Rules.{shape_of};
ghost use Rattle.facts.specs.Telling.{any_before, each_shape};

use region::Rule;
use std::alloc::{AllocError, Global};

/// Some of the rules.
pub(crate) fn any_of(alloc: Global, rules: Vec<Rule>) -> Result<Rule, AllocError>
    ensures { IfOk result (λ rule. shape_of rule ≡ any_before (map shape_of rules.items) (AnyOf [])) }
{
    let mut rules = rules;
    let mut any = Rule::AnyOf(Vec::new(alloc));
    while let Some(rule) = rules.pop() {
        any = either(alloc, rule, any)?;
    }
    Ok(any)
}

/// Each of the rules.
pub(crate) fn each_of(alloc: Global, rules: Vec<Rule>) -> Result<Rule, AllocError>
    ensures { IfOk result (λ rule. shape_of rule ≡ each_shape (map shape_of rules.items)) }
{
    let mut rules = rules;
    let Some(last) = rules.pop() else {
        return Ok(Rule::AnyOf(Vec::new(alloc)));
    };
    let mut each = last;
    while let Some(rule) = rules.pop() {
        each = both(alloc, rule, each)?;
    }
    Ok(each)
}

/// One of two rules.
fn either(alloc: Global, first: Rule, second: Rule) -> Result<Rule, AllocError>
    ensures { IfOk result (λ rule. shape_of rule ≡ Either (shape_of first) (shape_of second)) }
{
    Ok(Rule::Either(Box::new(alloc, first)?, Box::new(alloc, second)?))
}

/// Both of two rules.
fn both(alloc: Global, first: Rule, second: Rule) -> Result<Rule, AllocError>
    ensures { IfOk result (λ rule. shape_of rule ≡ Both (shape_of first) (shape_of second)) }
{
    Ok(Rule::Both(Box::new(alloc, first)?, Box::new(alloc, second)?))
}

/// What the node holds by itself, or the members of any of some nodes.
pub(crate) fn own_or(alloc: Global, any: Vec<u64>) -> Result<Rule, AllocError>
    ensures { IfOk result (λ rule. shape_of rule ≡ Either Own (AnyOf any.items)) }
{
    Ok(Rule::Either(
        Box::new(alloc, Rule::Own)?,
        Box::new(alloc, Rule::AnyOf(any))?,
    ))
}

/// The members of any of some nodes, where others are read.
pub(crate) fn reads_or(alloc: Global, read: Vec<u64>, any: Vec<u64>) -> Result<Rule, AllocError>
    ensures { IfOk result (λ rule. shape_of rule ≡ Either (Reads read.items) (AnyOf any.items)) }
{
    Ok(Rule::Either(
        Box::new(alloc, Rule::Reads(read))?,
        Box::new(alloc, Rule::AnyOf(any))?,
    ))
}

/// The first without the second.
pub(crate) fn without(alloc: Global, base: Rule, less: Rule) -> Result<Rule, AllocError>
    ensures { IfOk result (λ rule. shape_of rule ≡ Except (shape_of base) (shape_of less)) }
{
    Ok(Rule::Except(Box::new(alloc, base)?, Box::new(alloc, less)?))
}
