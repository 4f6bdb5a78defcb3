//! What is published first.
ghost use Rattle.std.specs.Prelude.{◌≡◌, ◌∷◌, [], IfOk};
ghost use Rattle.published.specs.declared.publication.TheConstants.{MAX_SESSIONS};
ghost use Rattle.published.specs.Judged.{WereJudged};
ghost use Rattle.shown.specs.Standing.{nothing, standing, HasRoom};

use published::{Naming, Opened, Publication};
use shown::{Shown, Step};
use std::alloc::{AllocError, Global};
use std::sync::Wait;

/// The state after the first step, and its publication.
pub(crate) fn publish_first<J: Naming, R: Wait + Drop>(
    alloc: Global,
    rt: R,
    opened: Opened,
    first: Step,
) -> Result<(Shown, Publication<J, R>), AllocError>
    requires named { opened.book ≡ J.book }
    requires room { HasRoom nothing first }
    ensures own { IfOk result (λ begun. begun.0 ≡ standing (first ∷ [])) }
    ensures book { IfOk result (λ begun. begun.1.book ≡ opened.book) }
    ensures posted { IfOk result (λ begun. begun.1.posted ≡ first ∷ []) }
    ensures shown { IfOk result (λ begun. begun.1.shown ≡ first ∷ []) }
    ensures judged { IfOk result (λ begun. WereJudged begun.1.posted begun.1.shown) }
    ensures seats { IfOk result (λ begun. begun.1.seats ≡ MAX_SESSIONS) }
{
    let mut own = Shown::without_parts(alloc, opened.keys);
    own.apply(&first)?;
    let publication = Publication::open(alloc, rt, opened, first)?;
    Ok((own, publication))
}
