//! Configurations.
ghost use Rattle.std.specs.Prelude.{◌≡◌, ◌&&◌, ◌<◌, ◌^◌, All, map, IfOk, IfErr, OnOk, IsTrue, IfSome, IfNone, true, false, string_bytes};
ghost use Rattle.std.specs.List.{list_any, list_all};
ghost use Rattle.names.specs.declared.tuple.Tuple.{Tuple};
ghost use Rattle.meaning.specs.Admits.{is_relation, is_type, declares};
ghost use Rattle.meaning.specs.Config.{rel_of};
ghost use Rattle.config_text.specs.Canonical.{config_text};
ghost use Rattle.config_text.specs.Forms.{defined_of};
ghost use Rattle.config_text.specs.Parts.{configured};
ghost use Rattle.config.specs.Invariant.{IsShort};

use crate::causes::{first_cause, stands_in};
use crate::finding::first_place;
use crate::levels::levels_of;
use config_text::{Parts, Relation, read_configuration, text_of};
use names::limits::MAX_CONFIG_LEN;
use names::{Name, Node, Refusal, RelationName, SubjectType, Tuple};
use std::alloc::{AllocError, Global};
use std::marker::Model;

/// A valid configuration. Contracts see its namespaces and the definitions of its relations, both in
/// byte order.
#[derive(Debug, Drop)]
pub struct Config {
    namespaces: Vec<Name>,
    relations: Vec<Relation>,
    levels: Vec<usize>,
}

impl Model for Config {
    ghost use Rattle.meaning.specs.Config.{Configured};
    ghost use Rattle.meaning.specs.inside.Codes.{coded_config};
    ghost use Rattle.config_text.specs.Parts.{configured};
    ghost use Rattle.config.specs.Invariant.{IsConfig};

    ghost Value = { Configured };

    ghost coded = { coded_config };

    ghost view = { λ c. configured c.namespaces.items c.relations.items };

    ghost invariant = { λ c. IsConfig (configured c.namespaces.items c.relations.items) c.levels.items };
}

impl Config {
    ghost use Rattle.meaning.specs.Config.{IsWhole, Has, empty_config};
    ghost use Rattle.meaning.specs.Admits.{admits};
    ghost use Rattle.names.specs.declared.refusal.Refusal.TheVariants.{UnknownRelation, TypeRefused};
    ghost use Rattle.config.specs.Levels.{AreLevels};
    ghost use Rattle.config.specs.Places.{StandsAt};
    ghost use Rattle.config.specs.Valid.{IsValid};
    ghost use Rattle.config_text.specs.Order.{IsOrdered};
    ghost use Rattle.config.specs.Causes.{Accepts, ConfigCause};
    ghost use Rattle.config.specs.Refused.{AdmitCause};

    /// The configuration of revision 0. It takes no memory.
    pub fn empty(alloc: Global) -> Config
        ensures { result ≡ empty_config }
    {
        Config {
            namespaces: Vec::new(alloc),
            relations: Vec::new(alloc),
            levels: Vec::new(alloc),
        }
    }

    /// Reads a configuration's JSON. It is refused with the first cause that applies, in the order of
    /// `Cause`.
    pub fn from_json(alloc: Global, bytes: &[u8]) -> Result<Config, Refusal>
        ensures ok { IfOk result (λ c. Accepts bytes.now c) }
        ensures err { IfErr result (λ e. ConfigCause bytes.now e) }
    {
        let parts = read_configuration(alloc, bytes)?;
        if let Some(cause) = first_cause(&parts) {
            return Err(Refusal::ConfigRefused(cause));
        }
        let levels = levels_of(alloc, &parts)?;
        // Never taken: the canonical text is no longer than the one that was read.
        if !is_short(alloc, &parts.namespaces, &parts.relations)? {
            return Err(Refusal::Memory);
        }
        let Parts {
            namespaces,
            relations,
        } = parts;
        Ok(Config {
            namespaces,
            relations,
            levels,
        })
    }

    /// The relations, by namespace and then by name. Each configuration is a valid one, in which a relation stands once.
    pub fn relations(&self) -> &[Relation]
        ensures relations { map defined_of result.now ≡ self.now.relations }
        ensures valid { IsValid self.now }
        ensures ordered { IsOrdered self.now }
        ensures whole { All (λ d. IsWhole d.form) self.now.relations }
    {
        &self.relations
    }

    /// The level of each relation, in the same order.
    pub fn levels(&self) -> &[usize]
        ensures levels { AreLevels self.now result.now }
        ensures small { All (λ l. l < 2 ^ 32) result.now }
    {
        &self.levels
    }

    /// Where the node's relation stands among the relations, if it is there.
    pub fn place_of(&self, node: &Node) -> Option<usize>
        ensures found { IfSome result (StandsAt self.now (rel_of node.now)) }
        ensures none { IfNone result (Has self.now (rel_of node.now) → ⊥) }
    {
        let relations = self.relations.as_slice();
        match first_place(relations, node) {
            Some(place) => Some(place),
            None => self.sought_place(node),
        }
    }

    /// The same, by halves.
    fn sought_place(&self, node: &Node) -> Option<usize>
        ensures found { IfSome result (StandsAt self.now (rel_of node.now)) }
        ensures none { IfNone result (Has self.now (rel_of node.now) → ⊥) }
    {
        let relations = self.relations.as_slice();
        match relations.binary_search_by(|relation| relation.compare(node)) {
            Ok(place) => Some(place),
            Err(_) => None,
        }
    }

    /// Whether the tuple is valid: its relation is there, and declares the type of its subject.
    pub fn admits(&self, tuple: &Tuple) -> Result<(), Refusal>
        ensures ok { OnOk result (admits self.now tuple.now ≡ true) }
        ensures err { IfErr result (AdmitCause self.now tuple.now) }
    {
        let Some(place) = self.place_of(&tuple.node) else {
            return Err(Refusal::UnknownRelation);
        };
        if self.relations[place].declares(&tuple.subject) {
            return Ok(());
        }
        Err(Refusal::TypeRefused)
    }

    /// Whether the tuple is valid.
    pub fn allows(&self, tuple: &Tuple) -> bool
        ensures { result ≡ admits self.now tuple.now }
    {
        match self.place_of(&tuple.node) {
            None => false,
            Some(place) => self.relations[place].declares(&tuple.subject),
        }
    }

    /// Whether each tuple that an earlier configuration admits is admitted: each type that a relation of it declares, the
    /// same relation declares here. It goes over the declared types, and over no tuple.
    pub fn admits_all_of(&self, earlier: &Config) -> bool
        ensures yes { IsTrue result → (t : Tuple) → admits earlier.now t ≡ true → admits self.now t ≡ true }
        ensures no { result ≡ false → (t : Tuple) × (admits earlier.now t ≡ true) × (admits self.now t ≡ false) }
    {
        for relation in &earlier.relations {
            if !self.declares_all(&relation.name, &relation.types) {
                return false;
            }
        }
        true
    }

    fn declares_all(&self, name: &RelationName, types: &[SubjectType]) -> bool
        ensures { result ≡ list_all (λ type. list_any (λ d. is_relation name.now d && list_any (is_type type) d.types) self.now.relations) types.now }
    {
        for declared in types {
            if !self.declares(name, declared) {
                return false;
            }
        }
        true
    }

    fn declares(&self, name: &RelationName, declared: &SubjectType) -> bool
        ensures { result ≡ list_any (λ d. is_relation name.now d && list_any (is_type declared.now) d.types) self.now.relations }
    {
        let relations = self.relations.as_slice();
        match relations.binary_search_by(|relation| relation.name.cmp(name)) {
            Ok(place) => stands_in(declared, &relations[place].types),
            Err(_) => false,
        }
    }

    /// The canonical text: members in byte order, types in the order given, and no member that says what
    /// holds without it.
    pub fn to_json(&self, alloc: Global) -> Result<String, AllocError>
        ensures text { IfOk result (λ s. string_bytes s ≡ config_text self.now) }
        ensures read_back { IfOk result (λ s. Accepts (string_bytes s) self.now) }
    {
        text_of(alloc, &self.namespaces, &self.relations)
    }

    /// A copy of the configuration.
    pub fn again(&self, alloc: Global) -> Result<Config, AllocError>
        ensures { IfOk result (λ c. c ≡ self.now) }
    {
        let namespaces = self.namespaces.as_slice().to_vec(alloc)?;
        let relations = copies(alloc, &self.relations)?;
        let levels = self.levels.as_slice().to_vec(alloc)?;
        Ok(Config {
            namespaces,
            relations,
            levels,
        })
    }
}

/// Whether the canonical text can be read again.
fn is_short(alloc: Global, namespaces: &[Name], relations: &[Relation]) -> Result<bool, AllocError>
    ensures { IfOk result (λ short. IsTrue short → IsShort (configured namespaces.now relations.now)) }
{
    let text = text_of(alloc, namespaces, relations)?;
    Ok(text.len() <= MAX_CONFIG_LEN)
}

fn copies(alloc: Global, relations: &[Relation]) -> Result<Vec<Relation>, AllocError>
    ensures { IfOk result (λ v. map defined_of v.items ≡ map defined_of relations.now) }
{
    let mut copies = Vec::new(alloc);
    for relation in relations {
        copies.push(relation.again(alloc)?)?;
    }
    Ok(copies)
}
