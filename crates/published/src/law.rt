//! The law of published steps.
ghost use Rattle.published.specs.Rising.{RevisionsRise};

/// The law that where published steps begin with others, the store is the same, neither the floor nor the newest revision is
/// lower, and what both retain is the same.
pub fn revisions_rise()
    ensures { RevisionsRise }
{}
