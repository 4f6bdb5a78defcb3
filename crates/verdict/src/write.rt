//! Why a write is refused.
ghost use Rattle.std.specs.Prelude.{◌≡◌, IfErr, OnOk};
ghost use Rattle.rows.specs.Retained.{newest_of};
ghost use Rattle.rows.specs.Follows.{IsAccepted};
ghost use Rattle.verdict.specs.Verdict.{AcceptsWrite, RefusesWrite};
ghost use Rattle.verdict.specs.inside.Before.{comes_before};

use crate::conditions::judge_conditions;
use crate::limits::MAX_CONDITIONS;
use names::{Refusal, Write};
use rows::Rows;
use zookie::Zookie;

/// Why a write is refused at the newest revision, if it is: the first cause, each looked for over the whole write
/// before the next. Conditions come after what is wrong with the operations by themselves, and before it is asked
/// whether their tuples are there. No memory is taken.
pub fn judge(rows: &Rows, write: &Write<Zookie>) -> Result<(), Refusal>
    ensures ok { OnOk result (AcceptsWrite rows.now write.now) }
    ensures accepted { OnOk result (IsAccepted (newest_of rows.now) write.now.ops) }
    ensures err { IfErr result (RefusesWrite rows.now write.now) }
{
    let conditions = write.conditions.as_slice();
    if conditions.len() > MAX_CONDITIONS {
        return Err(Refusal::Malformed);
    }
    let judged = rows.verdict(write.ops.as_slice());
    if comes_before(&judged) {
        return judged;
    }
    judge_conditions(rows, conditions)?;
    judged
}

/// Whether the operations are refused for what is looked for before the conditions.
fn comes_before(judged: &Result<(), Refusal>) -> bool
    ensures { result ≡ comes_before judged.now }
{
    match judged {
        Ok(()) => false,
        Err(Refusal::AlreadyThere(_)) => false,
        Err(Refusal::NotThere(_)) => false,
        Err(Refusal::Full) => false,
        Err(_) => true,
    }
}
