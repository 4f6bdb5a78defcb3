//! Views are valid.
ghost use Rattle.meaning.specs.Reads.{IsValid};

use rows::View;

/// What a view holds is valid: each relation is defined once and has a level, and each tuple is admitted.
pub fn each_view_is_valid(view: &View)
    ensures { IsValid view.now }
{
    let _relations = view.config().relations();
}
