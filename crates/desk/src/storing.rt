//! How a change is stored.
ghost use Rattle.std.specs.Prelude.{◌≡◌, ◌≤◌, ◌∷◌, [], false, IfOk, IfErr, OnOk, OnErr};
ghost use Rattle.names.specs.declared.limits.TheConstants.{MAX_REV};
ghost use Rattle.rows.specs.Follows.{IsNext};
ghost use Rattle.shown.specs.declared.step.Step.TheVariants as steps;
ghost use Rattle.shown.specs.Standing.{after_step, CanRaise, HasRoom};
ghost use Rattle.tables.specs.Changing.{IsChangeOf};
ghost use Rattle.tables.specs.Device.{IsOpen, Lasts};
ghost use Rattle.tables.specs.Storing.{PutsAbsent};
ghost use Rattle.desk.specs.TableChanges.{Adds, Raises};
ghost use Rattle.desk.specs.inside.Latching.{AgreeWith, IsUnstored};
ghost use Rattle.desk.specs.inside.Changing.{plain, step_of, CanTakeBack};

use crate::latched_tables::LatchedTables;
use names::Refusal;
use shown::{Shown, Step};
use tables::{Puts, TableChange, Tables};
use tuple_keys::KeptCommit;

/// The commit as the next change of the state.
pub(crate) fn commit_change(own: &Shown, commit: KeptCommit, puts: Puts) -> TableChange
    requires next { IsNext own.now.kept commit }
    requires puts { puts ≡ Puts.Absent → PutsAbsent own.now.kept commit }
    ensures can { IsChangeOf own.now.kept result }
    ensures room { HasRoom own.now (step_of result) }
    ensures back { CanTakeBack own.now result }
    ensures plain { plain result ≡ Adds commit }
    ensures step { step_of result ≡ steps.Commit commit }
{
    TableChange::Commit {
        rev: own.newest() + 1,
        commit,
        puts,
    }
}

/// A higher floor as a change of the state.
pub(crate) fn floor_change(own: &Shown, floor: u64) -> TableChange
    requires can { CanRaise own.now floor }
    requires small { floor ≤ MAX_REV }
    ensures can { IsChangeOf own.now.kept result }
    ensures room { HasRoom own.now (step_of result) }
    ensures back { CanTakeBack own.now result }
    ensures plain { plain result ≡ Raises floor }
    ensures step { step_of result ≡ steps.Trim floor }
{
    let first = own.last_config_below(floor);
    TableChange::Trim { floor, first }
}

/// Makes a change in the tables and in the state that changes are judged on, or in neither.
pub(crate) fn store<T: Tables + Drop>(
    tables: &mut LatchedTables<T>,
    own: &mut Shown,
    change: TableChange,
) -> Result<Step, Refusal>
    requires works { tables.old.failed ≡ false }
    requires can { IsChangeOf own.old.kept change }
    requires room { HasRoom own.old (step_of change) }
    requires back { CanTakeBack own.old change }
    requires agrees { AgreeWith T.Tables tables.old own.old.kept }
    ensures step { IfOk result (λ step. step ≡ step_of change) }
    ensures done { OnOk result (own.new ≡ after_step own.old (step_of change)) }
    ensures undone { OnErr result (own.new ≡ own.old) }
    ensures agrees { AgreeWith T.Tables tables.new own.new.kept }
    ensures held { OnOk result (T.holds tables.new.tables own.new.kept) }
    ensures settled { OnOk result (T.leaves tables.new.tables (own.new.kept ∷ [])) }
    ensures works { OnOk result (tables.new.failed ≡ false) }
    ensures open { OnOk result (IsOpen (T.device tables.new.tables)) }
    ensures quiet { OnOk result (T.count tables.new.tables ≡ T.count tables.old.tables) }
    ensures err { IfErr result (λ why.
        IsUnstored T.Tables own.old.kept (plain change) tables.old why tables.new) }
    ensures lasts { Lasts (T.device tables.old.tables) (T.device tables.new.tables) }
{
    match &change {
        TableChange::Commit { commit, .. } => {
            let step = Step::Commit(commit.again()?);
            own.apply(&step)?;
            match tables.change(&change) {
                Ok(()) => Ok(step),
                Err(why) => {
                    own.back();
                    Err(why)
                }
            }
        }
        TableChange::Trim { floor, .. } => {
            tables.change(&change)?;
            own.raise(*floor);
            Ok(Step::Trim(*floor))
        }
    }
}
