//! Rewrites, with names in the texts' places.
ghost use Rattle.std.specs.Prelude.{◌≡◌, IsTrue, false, IfOk, IfErr, map};
ghost use Rattle.names.specs.Refusals.{ReadCause};
ghost use Rattle.config_text.specs.Forms.{form_of, forms_of};
ghost use Rattle.config_text.specs.Texts.{draft_form};
ghost use Rattle.config_text.specs.Spelling.{form_named, forms_named};

use crate::draft::DraftRewrite;
use crate::rewrite::Rewrite;
use names::{Name, Refusal};
use std::alloc::Global;

/// The rewrite that a draft's texts spell. It is malformed where a text in a name's place is no name.
#[cycle(named)]
pub fn name_rewrite(alloc: Global, draft: &DraftRewrite) -> Result<Rewrite, Refusal>
    ensures ok { IfOk result (λ r. form_of r ≡ draft_form draft.now) }
    ensures named { IfOk result (λ _. IsTrue (form_named (draft_form draft.now))) }
    ensures err { IfErr result (λ e. ReadCause (form_named (draft_form draft.now) ≡ false) e) }
{
    match draft {
        DraftRewrite::This => Ok(Rewrite::This),
        DraftRewrite::Computed(relation) => {
            let relation = Name::parse(relation.as_str())?;
            Ok(Rewrite::Computed(relation))
        }
        DraftRewrite::TupleTo { tupleset, relation } => Ok(Rewrite::TupleTo {
            tupleset: Name::parse(tupleset.as_str())?,
            relation: Name::parse(relation.as_str())?,
        }),
        DraftRewrite::Union(parts) => {
            let parts = name_rewrites(alloc, parts)?;
            Ok(Rewrite::Union(parts))
        }
        DraftRewrite::Intersection(parts) => {
            let parts = name_rewrites(alloc, parts)?;
            Ok(Rewrite::Intersection(parts))
        }
        DraftRewrite::Exclusion(base, less) => {
            let base = name_rewrite(alloc, base)?;
            let less = name_rewrite(alloc, less)?;
            Ok(Rewrite::Exclusion(Box::new(alloc, base)?, Box::new(alloc, less)?))
        }
    }
}

#[cycle(named)]
fn name_rewrites(alloc: Global, drafts: &[DraftRewrite]) -> Result<Vec<Rewrite>, Refusal>
    ensures ok { IfOk result (λ v. map form_of v.items ≡ map draft_form drafts.now) }
    ensures named { IfOk result (λ _. IsTrue (forms_named (forms_of (map draft_form drafts.now)))) }
    ensures err { IfErr result (λ e. ReadCause (forms_named (forms_of (map draft_form drafts.now)) ≡ false) e) }
{
    let mut rewrites = Vec::new(alloc);
    for draft in drafts {
        rewrites.push(name_rewrite(alloc, draft)?)?;
    }
    Ok(rewrites)
}
