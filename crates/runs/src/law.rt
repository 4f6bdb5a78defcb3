//! What one run leaves to the next.
ghost use Rattle.std.specs.Prelude.{◌≡◌, List, [], ◌∷◌, None};
ghost use Rattle.sqlite_wal.specs.Recovery.{Image};
ghost use Rattle.rows.specs.Retained.{Retained};
ghost use Rattle.rows.specs.Loads.{retained_of};
ghost use Rattle.rows.specs.declared.loaded.Loaded.{Loaded};
ghost use Rattle.shown.specs.declared.step.Step.{Step};
ghost use Rattle.shown.specs.declared.step.Step.TheVariants.{Open};
ghost use Rattle.runs.specs.Files.{HoldsOneOf};
ghost use Rattle.runs.specs.Over.{BeginsIn, GoesOn};

/// Where two files hold one of the histories that a run could leave, the next run over them begins with it.
pub fn next_run_goes_on()
    ensures { (image : Image) (rs : List Retained) (loaded : Loaded) (posted : List Step) → HoldsOneOf image rs
        → BeginsIn image None (retained_of loaded) → posted ≡ Open loaded ∷ [] → GoesOn rs posted }
{}
