//! Why a configuration is refused.
ghost use Rattle.std.specs.Prelude.{◌≡◌};
ghost use Rattle.names.specs.Refusals.{cause_name_of};

use crate::{Items, RelationName};

/// One step of a cycle of relations that depend on each other.
#[derive(Debug, Drop)]
pub struct CycleStep {
    /// Whether the step stands under the second part of an exclusion.
    pub subtracted: bool,
    pub to: RelationName,
}

/// Why a configuration is refused.
#[derive(Debug, Drop)]
pub enum Cause {
    /// It has more than 65,536 bytes.
    Size,
    /// It is no JSON.
    Json,
    /// It is no configuration's JSON.
    Shape,
    /// A text in a name's place is no name, or no two names joined by `#`.
    Name,
    /// There are over 64 namespaces, 256 relations in all, 32 types in a relation, or 64 nodes or depth 16 in a rewrite.
    Limit,
    /// A declared type is not there, or stands twice.
    DeclaredType,
    /// A relation declares types and has no `this`, or has `this` and declares none.
    This,
    /// A computed relation is not there.
    Computed,
    /// A tupleset relation cannot be one.
    Tupleset,
    /// An indexed relation cannot be indexed.
    Indexed,
    /// An exclusion depends on itself: the steps of a cycle, of which the first is subtracted. It begins
    /// where the last step ends.
    Cycle(Items<CycleStep>),
}

impl Cause {
    /// The word for it in replies.
    pub fn name(&self) -> &'static str
        ensures { result.now ≡ cause_name_of self.now }
    {
        match self {
            Cause::Size => "size",
            Cause::Json => "json",
            Cause::Shape => "shape",
            Cause::Name => "name",
            Cause::Limit => "limit",
            Cause::DeclaredType => "type",
            Cause::This => "this",
            Cause::Computed => "computed",
            Cause::Tupleset => "tupleset",
            Cause::Indexed => "indexed",
            Cause::Cycle(_) => "cycle",
        }
    }
}
