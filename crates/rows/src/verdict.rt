//! Why a write is refused.
ghost use Rattle.std.specs.Prelude.{◌≡◌, ◌≤◌, count_by, length, map, nat_lt, None, false, IfErr, OnOk};
ghost use Rattle.std.specs.List.{list_any};
ghost use Rattle.meaning.specs.History.{puts_in};
ghost use Rattle.meaning.specs.Verdict.{is_unknown, is_untyped, is_twice, inserts_again, deletes_nothing, first_from, event_of, write_cause, config_cause, is_full};
ghost use Rattle.rows.specs.Retained.{newest_of};
ghost use Rattle.rows.specs.Follows.{IsAccepted};
ghost use Rattle.rows.specs.Judging.{puts_tuple, says_unknown, WriteRefused, ConfigRefused};
ghost use Rattle.rows.specs.inside.Counting.{is_new, deletes};

use crate::rows::Rows;
use crate::twice::is_twice;
use crate::view::View;
use config::Config;
use names::limits::{MAX_OPS, MAX_REV, MAX_ROWS, MAX_TUPLES};
use names::{Op, OpKind, Refusal};

impl Rows {
    /// Why the operations are refused at the newest revision, if they are: the first cause, each looked
    /// for over the whole write before the next. It takes no memory.
    pub fn verdict(&self, ops: &[Op]) -> Result<(), Refusal>
        ensures ok { OnOk result (IsAccepted (newest_of self.now) ops.now) }
        ensures err { IfErr result (WriteRefused (newest_of self.now) ops.now) }
    {
        match self.write_cause(ops) {
            None => Ok(()),
            Some(why) => Err(why),
        }
    }

    /// Why a configuration is refused at the newest revision, if it is. It takes no memory: the first tuple in the way is
    /// read from its text.
    pub fn config_verdict(&self, config: &Config) -> Result<(), Refusal>
        ensures ok { OnOk result (config_cause (newest_of self.now) config.now ≡ None) }
        ensures err { IfErr result (ConfigRefused (newest_of self.now) config.now) }
    {
        if let Some(tuple) = self.tuple_in_the_way(config) {
            return Err(Refusal::TupleInTheWay(tuple));
        }
        if self.newest() + 1 > MAX_REV {
            return Err(Refusal::Full);
        }
        Ok(())
    }

    /// Why the operations are refused at the newest revision, or nothing.
    pub(crate) fn write_cause(&self, ops: &[Op]) -> Option<Refusal>
        ensures { result ≡ write_cause (newest_of self.now) ops.now }
    {
        let view = self.at(self.newest());
        let config = view.config();
        if ops.is_empty() || ops.len() > MAX_OPS {
            return Some(Refusal::Malformed);
        }
        if some_refused(config, ops) {
            if some_unknown(config, ops) {
                return Some(Refusal::UnknownRelation);
            }
            return Some(Refusal::TypeRefused);
        }
        if is_twice(ops) {
            return Some(Refusal::TwiceInOneWrite);
        }
        if let Some(place) = first_there(&view, ops) {
            return Some(Refusal::AlreadyThere(place));
        }
        if let Some(place) = first_absent(&view, ops) {
            return Some(Refusal::NotThere(place));
        }
        if self.is_full(&view, ops) {
            return Some(Refusal::Full);
        }
        None
    }

    /// Whether a limit would be passed.
    fn is_full(&self, view: &View<'_>, ops: &[Op]) -> bool
        requires few { length ops.now ≤ MAX_OPS }
        requires once { is_twice ops.now ≡ false }
        requires newest { view.now ≡ (newest_of self.now).held }
        requires fresh { first_from (inserts_again view.now.tuples) 0 ops.now ≡ None }
        requires there { first_from (deletes_nothing view.now.tuples) 0 ops.now ≡ None }
        ensures { result ≡ is_full (newest_of self.now) (map event_of ops.now) }
    {
        let counts = self.counts();
        let room = MAX_TUPLES + count_deletes(ops) as u64;
        if counts.tuples > room || are_more(view, ops, room - counts.tuples) {
            return true;
        }
        counts.rows + count_puts(ops) as u64 > MAX_ROWS || self.newest() + 1 > MAX_REV
    }
}

/// Whether the configuration does not admit some operation's tuple. Where it admits all, all relations are there.
fn some_refused(config: &Config, ops: &[Op]) -> bool
    ensures is { result ≡ list_any (is_untyped config.now) ops.now }
    ensures known { result ≡ false → list_any (is_unknown config.now) ops.now ≡ false }
{
    some_untyped(config, ops)
}

/// Whether the relation of some operation's tuple is not there.
fn some_unknown(config: &Config, ops: &[Op]) -> bool
    ensures { result ≡ list_any (is_unknown config.now) ops.now }
{
    ops.iter().any(|op| is_unknown(config, op))
}

/// Whether the configuration does not admit some operation's tuple.
fn some_untyped(config: &Config, ops: &[Op]) -> bool
    ensures { result ≡ list_any (is_untyped config.now) ops.now }
{
    ops.iter().any(|op| !config.allows(&op.tuple))
}

/// The first operation that inserts a tuple which is there.
fn first_there(view: &View<'_>, ops: &[Op]) -> Option<u64>
    ensures { result ≡ first_from (inserts_again view.now.tuples) 0 ops.now }
{
    for i in 0..ops.len() {
        if inserts_again(view, &ops[i]) {
            return Some(i as u64);
        }
    }
    None
}

/// The first operation that deletes a tuple which is not there.
fn first_absent(view: &View<'_>, ops: &[Op]) -> Option<u64>
    ensures { result ≡ first_from (deletes_nothing view.now.tuples) 0 ops.now }
{
    for i in 0..ops.len() {
        if deletes_nothing(view, &ops[i]) {
            return Some(i as u64);
        }
    }
    None
}

/// Whether more operations than there is room for put a tuple that is not there. None is looked up where all would fit.
fn are_more(view: &View<'_>, ops: &[Op], room: u64) -> bool
    ensures { result ≡ nat_lt room (count_by (is_new view.now.tuples) ops.now) }
{
    let most = ops.len() as u64;
    most > room && count_new(view, ops) as u64 > room
}

/// How many operations put a tuple that is not there, where no insert is of one that is: no insert is looked up again.
fn count_new(view: &View<'_>, ops: &[Op]) -> usize
    ensures { result ≡ count_by (is_new view.now.tuples) ops.now }
{
    ops.iter().filter(|op| is_new(view, op)).count()
}

/// How many operations are deletes.
fn count_deletes(ops: &[Op]) -> usize
    ensures { result ≡ count_by deletes ops.now }
{
    ops.iter().filter(|op| !puts_tuple(op)).count()
}

/// How many operations put a tuple.
fn count_puts(ops: &[Op]) -> usize
    ensures { result ≡ count_by puts_tuple ops.now }
{
    ops.iter().filter(|op| puts_tuple(op)).count()
}

fn is_unknown(config: &Config, op: &Op) -> bool
    ensures { result ≡ is_unknown config.now op.now }
{
    match config.admits(&op.tuple) {
        Ok(()) => false,
        Err(why) => says_unknown(&why),
    }
}

fn says_unknown(why: &Refusal) -> bool
    ensures { result ≡ says_unknown why.now }
{
    match why {
        Refusal::UnknownRelation => true,
        _ => false,
    }
}

fn inserts_again(view: &View<'_>, op: &Op) -> bool
    ensures { result ≡ inserts_again view.now.tuples op.now }
{
    match op.kind {
        OpKind::Insert => view.contains(&op.tuple),
        OpKind::Touch => false,
        OpKind::Delete => false,
    }
}

fn deletes_nothing(view: &View<'_>, op: &Op) -> bool
    ensures { result ≡ deletes_nothing view.now.tuples op.now }
{
    match op.kind {
        OpKind::Insert => false,
        OpKind::Touch => false,
        OpKind::Delete => !view.contains(&op.tuple),
    }
}

fn is_new(view: &View<'_>, op: &Op) -> bool
    ensures { result ≡ is_new view.now.tuples op.now }
{
    match op.kind {
        OpKind::Insert => true,
        OpKind::Touch => !view.contains(&op.tuple),
        OpKind::Delete => false,
    }
}

fn puts_tuple(op: &Op) -> bool
    ensures { result ≡ puts_tuple op.now }
{
    match op.kind {
        OpKind::Insert => true,
        OpKind::Touch => true,
        OpKind::Delete => false,
    }
}
