//! Why conditions are refused.
ghost use Rattle.std.specs.Prelude.{◌≡◌, None, Some, false, IfErr, OnOk};
ghost use Rattle.std.specs.List.{list_any};
ghost use Rattle.meaning.specs.Verdict.{first_from};
ghost use Rattle.rows.specs.Retained.{newest};
ghost use Rattle.verdict.specs.Verdict.{condition_cause, fails};
ghost use Rattle.verdict.specs.inside.Before.{is_foreign, is_future, is_expired};

use names::{Condition, Refusal};
use rows::Rows;
use zookie::Zookie;

/// Why the conditions are refused at the newest revision, if they are.
pub(crate) fn judge_conditions(rows: &Rows, conditions: &[Condition<Zookie>]) -> Result<(), Refusal>
    ensures ok { OnOk result (condition_cause rows.now conditions.now ≡ None) }
    ensures err { IfErr result (λ why. condition_cause rows.now conditions.now ≡ Some why) }
{
    if some_foreign(rows.number(), conditions) {
        return Err(Refusal::ForeignZookie);
    }
    if some_future(rows.newest(), conditions) {
        return Err(Refusal::Future);
    }
    if some_expired(rows.floor(), conditions) {
        return Err(Refusal::Expired);
    }
    match first_failing(rows, conditions) {
        Some(place) => Err(Refusal::ConditionFailed(place)),
        None => Ok(()),
    }
}

/// Whether some condition's zookie is another store's.
fn some_foreign(number: u64, conditions: &[Condition<Zookie>]) -> bool
    ensures { result ≡ list_any (is_foreign number) conditions.now }
{
    conditions
        .iter()
        .any(|condition| is_foreign(number, condition))
}

/// Whether some condition's zookie is above the newest revision.
fn some_future(newest: u64, conditions: &[Condition<Zookie>]) -> bool
    ensures { result ≡ list_any (is_future newest) conditions.now }
{
    conditions
        .iter()
        .any(|condition| is_future(newest, condition))
}

/// Whether some condition's zookie is below the floor.
fn some_expired(floor: u64, conditions: &[Condition<Zookie>]) -> bool
    ensures { result ≡ list_any (is_expired floor) conditions.now }
{
    conditions
        .iter()
        .any(|condition| is_expired(floor, condition))
}

/// The first condition that does not hold.
fn first_failing(rows: &Rows, conditions: &[Condition<Zookie>]) -> Option<u64>
    requires retained { list_any (is_expired rows.now.floor) conditions.now ≡ false }
    ensures { result ≡ first_from (fails rows.now) 0 conditions.now }
{
    for i in 0..conditions.len() {
        if fails(rows, &conditions[i]) {
            return Some(i as u64);
        }
    }
    None
}

/// Whether the condition does not hold.
fn fails(rows: &Rows, condition: &Condition<Zookie>) -> bool
    requires retained { is_expired rows.now.floor condition.now ≡ false }
    ensures { result ≡ fails rows.now condition.now }
{
    match condition {
        Condition::Exists(tuple) => !rows.at(rows.newest()).contains(tuple),
        Condition::Absent(tuple) => rows.at(rows.newest()).contains(tuple),
        Condition::Unchanged(tuple, zookie) => !rows.is_unchanged(tuple, zookie.rev),
    }
}

fn is_foreign(number: u64, condition: &Condition<Zookie>) -> bool
    ensures { result ≡ is_foreign number condition.now }
{
    match condition {
        Condition::Exists(_) => false,
        Condition::Absent(_) => false,
        Condition::Unchanged(_, zookie) => zookie.store != number,
    }
}

fn is_future(newest: u64, condition: &Condition<Zookie>) -> bool
    ensures { result ≡ is_future newest condition.now }
{
    match condition {
        Condition::Exists(_) => false,
        Condition::Absent(_) => false,
        Condition::Unchanged(_, zookie) => newest < zookie.rev,
    }
}

fn is_expired(floor: u64, condition: &Condition<Zookie>) -> bool
    ensures { result ≡ is_expired floor condition.now }
{
    match condition {
        Condition::Exists(_) => false,
        Condition::Absent(_) => false,
        Condition::Unchanged(_, zookie) => zookie.rev < floor,
    }
}
