//! Rewrites.
ghost use Rattle.std.specs.Prelude.{◌≡◌, IfOk, map};
ghost use Rattle.config_text.specs.Forms.{form_of, forms_of};

use names::Name;
use std::alloc::{AllocError, Global};

/// What a relation means: a userset rewrite of Zanzibar, section 2.3.
#[derive(Debug, Drop)]
pub enum Rewrite {
    /// The subjects of the node's own tuples.
    This,
    /// Another relation of the same object.
    Computed(Name),
    /// A relation of each object that the tupleset's tuples name.
    TupleTo { tupleset: Name, relation: Name },
    /// Some part.
    Union(Vec<Rewrite>),
    /// Each part.
    Intersection(Vec<Rewrite>),
    /// The first, and not the second.
    Exclusion(Box<Rewrite>, Box<Rewrite>),
}

/// A copy of the rewrite.
#[cycle(copied)]
pub fn copied(alloc: Global, rewrite: &Rewrite) -> Result<Rewrite, AllocError>
    ensures { IfOk result (λ r. form_of r ≡ form_of rewrite.now) }
{
    match rewrite {
        Rewrite::This => Ok(Rewrite::This),
        Rewrite::Computed(relation) => Ok(Rewrite::Computed(relation.clone()?)),
        Rewrite::TupleTo { tupleset, relation } => Ok(Rewrite::TupleTo {
            tupleset: tupleset.clone()?,
            relation: relation.clone()?,
        }),
        Rewrite::Union(parts) => Ok(Rewrite::Union(all_copied(alloc, parts)?)),
        Rewrite::Intersection(parts) => Ok(Rewrite::Intersection(all_copied(alloc, parts)?)),
        Rewrite::Exclusion(base, less) => {
            let base = copied(alloc, base)?;
            let less = copied(alloc, less)?;
            Ok(Rewrite::Exclusion(Box::new(alloc, base)?, Box::new(alloc, less)?))
        }
    }
}

#[cycle(copied)]
fn all_copied(alloc: Global, parts: &[Rewrite]) -> Result<Vec<Rewrite>, AllocError>
    ensures { IfOk result (λ v. map form_of v.items ≡ map form_of parts.now) }
{
    let mut copies = Vec::new(alloc);
    for part in parts {
        copies.push(copied(alloc, part)?)?;
    }
    Ok(copies)
}
