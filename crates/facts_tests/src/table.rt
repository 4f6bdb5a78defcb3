//! A few nodes, and what is known of them.
ghost use Rattle.std.specs.Prelude.{◌≡◌, ◌%◌, ℕ, nat_lt, IfOk, cond, refl};
ghost use Rattle.std.proofs.Common.{◌∙◌, sym, subst};
ghost use Rattle.region.specs.Sets.{IsWhole};
ghost use Rattle.region.specs.Rules.{fact_of, shape_of};
ghost use Rattle.region.specs.Gathered.{WasGathered};
ghost use Rattle.facts_tests.specs.Known.{world_of, low, plain_by, shape_by, fact_by, level_of};

use idsets::IdSet;
use region::{Facts, Region, Rule, Sets, Told, gather, refresh};
use std::alloc::{AllocError, Global};

/// What is known of a node: what it holds by itself, the nodes whose members it has, those that its rule reads, and
/// those whose members it lacks. Nodes below 256 lack none.
#[derive(Drop)]
pub(crate) struct Known {
    pub(crate) node: u64,
    pub(crate) own: IdSet,
    pub(crate) any: Vec<u64>,
    pub(crate) reads: Vec<u64>,
    pub(crate) less: Vec<u64>,
}

/// The nodes, and who was asked for.
#[derive(Drop)]
pub(crate) struct Table {
    pub(crate) known: Vec<Known>,
    pub(crate) asked: Vec<u64>,
}

// The nodes, as those of level 0.
fn low_nodes(alloc: Global, nodes: &[u64]) -> Result<Vec<u64>, AllocError>
    ensures { IfOk result (λ low_ones. low_ones.items ≡ low nodes.now) }
{
    let mut low_ones = Vec::new(alloc);
    for node in nodes {
        low_ones.push(*node % 256)?;
    }
    Ok(low_ones)
}

fn plain_rule(alloc: Global, known: &Known) -> Result<Rule, AllocError>
    ensures { IfOk result (λ rule. shape_of rule ≡ plain_by known.now) }
{
    let any = Rule::AnyOf(low_nodes(alloc, &known.any)?);
    let reads = Rule::Reads(low_nodes(alloc, &known.reads)?);
    let first = Rule::Either(Box::new(alloc, Rule::Own)?, Box::new(alloc, any)?);
    Ok(Rule::Either(Box::new(alloc, first)?, Box::new(alloc, reads)?))
}

fn rule_of(alloc: Global, known: &Known, node: u64) -> Result<Rule, AllocError>
    ensures { IfOk result (λ rule. shape_of rule ≡ shape_by node known.now) }
{
    let plain = plain_rule(alloc, known)?;
    if node < 256 {
        return Ok(plain);
    }
    let less = Rule::AnyOf(low_nodes(alloc, &known.less)?);
    Ok(Rule::Except(Box::new(alloc, plain)?, Box::new(alloc, less)?))
}

fn level(node: u64) -> u32
    ensures { result ≡ level_of node }
{
    if node < 256 { 0 } else { 1 }
}

fn told_by(alloc: Global, known: &Known, node: u64) -> Result<Told, AllocError>
    ensures node { IfOk result (λ told. told.node ≡ node) }
    ensures fact { IfOk result (λ told. fact_of told ≡ fact_by node known.now) }
{
    Ok(Told {
        node,
        level: level(node),
        rule: rule_of(alloc, known, node)?,
        own: known.own.again()?,
    })
}

fn told_of(alloc: Global, known: &[Known], node: u64) -> Result<Told, AllocError>
    ensures node { IfOk result (λ told. told.node ≡ node) }
    ensures fact { IfOk result (λ told. fact_of told ≡ world_of known.now node) }
{
    match known.split_first() {
        Some((first, others)) => {
            if first.node == node {
                told_by(alloc, first, node)
            } else {
                told_of(alloc, others, node)
            }
        }
        None => Ok(Told {
            node,
            level: level(node),
            rule: Rule::Own,
            own: IdSet::new(alloc),
        }),
    }
}

impl Facts for Table {
    ghost tells = { λ t n fact. fact ≡ world_of t.known.items n };

    ghost later = { λ a b. b.known ≡ a.known };

    ghost asked = { λ t. t.asked.items };

    fn ask(&mut self, alloc: Global, node: u64) -> Result<Told, AllocError> {
        let told = told_of(alloc, &self.known, node)?;
        self.asked.push(node)?;
        Ok(told)
    }

    ghost stays = { λ s. refl };

    ghost further = { λ a b c one more. more ∙ one };

    ghost grows = { λ a b n fact same tells. subst (λ v. fact ≡ world_of v.items n) (sym same) tells };
}

/// Refreshes by what the table knows.
pub(crate) fn refresh_by(
    alloc: Global,
    sets: &mut Sets,
    roots: &IdSet,
    turned: &[u64],
    changed: &[u64],
    table: &mut Table,
) -> Result<(), AllocError>
    requires { IsWhole sets.old }
    ensures { IsWhole sets.new }
{
    refresh(alloc, sets, roots, turned, changed, table)
}

/// Gathers what the table knows.
pub(crate) fn gather_by(
    alloc: Global,
    sets: &Sets,
    roots: &IdSet,
    turned: &[u64],
    changed: &[u64],
    table: &mut Table,
) -> Result<Region, AllocError>
    requires { IsWhole sets.now }
    ensures { IfOk result (λ region. WasGathered sets.now.rows region.told.items region.dropped.items) }
{
    gather(alloc, sets, roots, turned, changed, table)
}
