//! The parts of configurations.
ghost use Rattle.std.specs.Prelude.{IfOk, IfErr, map, string_bytes};
ghost use Rattle.names.specs.Refusals.{ReadCause};
ghost use Rattle.config_text.specs.Forms.{defined_of};
ghost use Rattle.config_text.specs.Parts.{parts_of};
ghost use Rattle.config_text.specs.Spelling.{Spells, SpellNames, SpellTypes, SpellsRelation, SpellRelations, SpellNoNames, SpellNoTypes, SpellsNoRelation, SpellNoRelations, SpellsNothing};
ghost use Rattle.config_text.specs.Texts.{relation_texts, config_texts};

use crate::draft::{Draft, DraftRelation};
use crate::named::name_rewrite;
use crate::relation::Relation;
use names::{Name, Refusal, RelationName, SubjectType};
use std::alloc::Global;

/// The namespaces and relations of a configuration.
#[derive(Drop)]
pub struct Parts {
    pub namespaces: Vec<Name>,
    pub relations: Vec<Relation>,
}

fn read_names(alloc: Global, texts: &[String]) -> Result<Vec<Name>, Refusal>
    ensures ok { IfOk result (λ v. SpellNames (map string_bytes texts.now) v.items) }
    ensures err { IfErr result (ReadCause (SpellNoNames (map string_bytes texts.now))) }
{
    let mut names = Vec::new(alloc);
    for text in texts {
        let name = Name::parse(text.as_str())?;
        names.push(name)?;
    }
    Ok(names)
}

fn read_types(alloc: Global, texts: &[String]) -> Result<Vec<SubjectType>, Refusal>
    ensures ok { IfOk result (λ v. SpellTypes (map string_bytes texts.now) v.items) }
    ensures err { IfErr result (ReadCause (SpellNoTypes (map string_bytes texts.now))) }
{
    let mut types = Vec::new(alloc);
    for text in texts {
        let declared = SubjectType::parse(text.as_str())?;
        types.push(declared)?;
    }
    Ok(types)
}

fn read_relation(alloc: Global, draft: &DraftRelation) -> Result<Relation, Refusal>
    ensures ok { IfOk result (λ r. SpellsRelation (relation_texts draft.now) (defined_of r)) }
    ensures err { IfErr result (ReadCause (SpellsNoRelation (relation_texts draft.now))) }
{
    let namespace = Name::parse(draft.namespace.as_str())?;
    let relation = Name::parse(draft.relation.as_str())?;
    let types = read_types(alloc, &draft.types)?;
    let rewrite = name_rewrite(alloc, &draft.rewrite)?;
    Ok(Relation {
        name: RelationName {
            namespace,
            relation,
        },
        types,
        rewrite,
        indexed: draft.indexed,
    })
}

fn read_relations(alloc: Global, drafts: &[DraftRelation]) -> Result<Vec<Relation>, Refusal>
    ensures ok { IfOk result (λ v. SpellRelations (map relation_texts drafts.now) (map defined_of v.items)) }
    ensures err { IfErr result (ReadCause (SpellNoRelations (map relation_texts drafts.now))) }
{
    let mut relations = Vec::new(alloc);
    for draft in drafts {
        let relation = read_relation(alloc, draft)?;
        relations.push(relation)?;
    }
    Ok(relations)
}

/// The configuration that a draft's texts spell. It is malformed where a text in a name's place is no
/// name.
pub fn read_parts(alloc: Global, draft: &Draft) -> Result<Parts, Refusal>
    ensures ok { IfOk result (λ p. Spells (config_texts draft.now) (parts_of p)) }
    ensures err { IfErr result (ReadCause (SpellsNothing (config_texts draft.now))) }
{
    let namespaces = read_names(alloc, &draft.namespaces)?;
    let relations = read_relations(alloc, &draft.relations)?;
    Ok(Parts {
        namespaces,
        relations,
    })
}
