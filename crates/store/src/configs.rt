//! The configurations, read.
ghost use Rattle.std.specs.Prelude.{◌≡◌, ◌≤◌, ◌⊎◌, true, false, map, length, drop, IsTrue, IfOk, IfErr, All};
ghost use Rattle.std.specs.Option.{option_copied};
ghost use Rattle.meaning.specs.Admits.{admits};
ghost use Rattle.meaning.specs.Config.{empty_config};
ghost use Rattle.sqlite_tables.specs.Stored.{config_row_in};
ghost use Rattle.store.specs.declared.parts.ReadConfig.{ReadConfig};
ghost use Rattle.store.specs.Written.{IsConfigAt, config_row_of, config_at, config_up_to};
ghost use Rattle.store.specs.inside.Following.{IsAdmitted, is_between};
ghost use Rattle.store.specs.inside.Reading.{as_span, as_config, AreAscending, AreAdmitted, AreLater, ArePartedAt, Rise};
ghost use Rattle.store.specs.Refused.{DeservedBy, IsOfConfig, ConfigsListed, AreDistinct, IsNotAdmitted, AreNotAdmitted};

use crate::kinds::since_in;
use crate::parts::{Head, ReadConfig, ReadSpan};
use crate::tuple_key::TupleKey;
use crate::unread::Unread;
use config::Config;
use sqlite_tables::StoredConfig;
use std::alloc::Global;

fn read_config(alloc: Global, newest: u64, stored: &StoredConfig) -> Result<ReadConfig, Unread>
    ensures same { IfOk result (λ c. config_row_of (as_config c) ≡ config_row_in stored.now) }
    ensures is { IfOk result (λ c. IsConfigAt newest (as_config c)) }
    ensures fault { IfErr result (DeservedBy (IsOfConfig newest stored.now)) }
{
    let config = Config::from_json(alloc, stored.text.as_bytes())?;
    let text = config.to_json(alloc)?;
    if text.as_str() != stored.text.as_str() || stored.rev == 0 || newest < stored.rev {
        return Err(Unread::Fault);
    }
    Ok(ReadConfig {
        rev: stored.rev,
        config,
    })
}

/// The configurations, each of which stands as its canonical text.
pub(crate) fn read_configs(
    alloc: Global,
    newest: u64,
    stored: &[StoredConfig],
) -> Result<Vec<ReadConfig>, Unread>
    ensures same { IfOk result (λ v. map config_row_of (map as_config v.items) ≡ map config_row_in stored.now) }
    ensures are { IfOk result (λ v. All (λ c. IsConfigAt newest (as_config c)) v.items) }
    ensures fault { IfErr result (DeservedBy (All (IsOfConfig newest) stored.now)) }
{
    let mut configs = Vec::new(alloc);
    for config in stored {
        configs.push(read_config(alloc, newest, config)?)?;
    }
    Ok(configs)
}

/// Whether the revisions ascend, and all but the first are above the floor.
pub(crate) fn are_ascending(floor: u64, configs: &[ReadConfig]) -> bool
    ensures passes { IsTrue result → AreAscending floor configs.now }
    ensures refuses { result ≡ false → ConfigsListed configs.now → ¬ (AreDistinct floor configs.now) }
{
    for i in 1..configs.len() {
        let rev = configs[i].rev;
        if rev <= configs[i - 1].rev || rev <= floor {
            return false;
        }
    }
    true
}

// The place of the first configuration of a later revision.
fn first_after(configs: &[ReadConfig], rev: u64) -> usize
    requires { Rise configs.now }
    ensures { ArePartedAt rev configs.now result }
{
    let mut low = 0;
    let mut high = configs.len();
    while low < high {
        let middle = low + (high - low) / 2;
        if configs[middle].rev <= rev {
            low = middle + 1;
        } else {
            high = middle;
        }
    }
    low
}

/// The configuration of a revision, if it brought one. They are searched by halves.
pub(crate) fn config_at(configs: &[ReadConfig], rev: u64) -> Option<&Config>
    requires { Rise configs.now }
    ensures { option_copied result ≡ config_at rev (map as_config configs.now) }
{
    let after = first_after(configs, rev);
    if after == 0 {
        return None;
    }
    let last = &configs[after - 1];
    if last.rev == rev {
        Some(&last.config)
    } else {
        None
    }
}

/// The last configuration up to a revision; `empty` is the one of revision 0. They are searched by halves.
pub(crate) fn config_up_to<'a>(empty: &'a Config, configs: &'a [ReadConfig], rev: u64) -> &'a Config
    requires empty { empty.now ≡ empty_config }
    requires rise { Rise configs.now }
    requires later { AreLater configs.now }
    ensures { result.now ≡ config_up_to rev (map as_config configs.now) }
{
    let after = first_after(configs, rev);
    if after == 0 {
        return empty;
    }
    &configs[after - 1].config
}

fn is_between(span: &ReadSpan, from: u64, rev: u64) -> bool
    ensures { result ≡ is_between from span.now.removed rev }
{
    from < rev && (span.removed == 0 || rev < span.removed)
}

// Whether the configuration admits the span's tuple, or does not come while it is there.
fn is_borne(revised: &ReadConfig, span: &ReadSpan, from: u64) -> bool
    ensures passes { IsTrue result → is_between from span.now.removed revised.now.rev ≡ true → admits revised.now.config span.now.tuple ≡ true }
    ensures refuses { result ≡ false → (is_between from span.now.removed revised.now.rev ≡ true) × (admits revised.now.config span.now.tuple ≡ false) }
{
    !is_between(span, from, revised.rev) || revised.config.allows(&span.tuple.tuple())
}

fn later(a: u64, b: u64) -> u64
    ensures either { (result ≡ a) ⊎ (result ≡ b) }
    ensures most { (a ≤ result) × (b ≤ result) }
{
    if a < b { b } else { a }
}

// Whether the configuration in force at a revision admits the tuple. Those from `since` on do, and are not asked.
fn is_allowed(
    empty: &Config,
    configs: &[ReadConfig],
    since: usize,
    rev: u64,
    tuple: &TupleKey,
) -> bool
    requires empty { empty.now ≡ empty_config }
    requires rise { Rise configs.now }
    requires later { AreLater configs.now }
    requires since { All (λ (revised : ReadConfig). admits revised.config tuple.now ≡ true) (drop since configs.now) }
    ensures { result ≡ admits (config_up_to rev (map as_config configs.now)) tuple.now }
{
    if since < first_after(configs, rev) {
        return true;
    }
    config_up_to(empty, configs, rev).allows(&tuple.tuple())
}

/// Whether each configuration admits the span's tuple that is in force while it is there, from the floor on. Those from
/// `since` on admit it.
fn is_admitted(
    empty: &Config,
    configs: &[ReadConfig],
    since: usize,
    floor: u64,
    span: &ReadSpan,
) -> bool
    requires empty { empty.now ≡ empty_config }
    requires rise { Rise configs.now }
    requires later { AreLater configs.now }
    requires within { since ≤ length configs.now }
    requires since { All (λ (revised : ReadConfig). admits revised.config span.now.tuple ≡ true) (drop since configs.now) }
    ensures passes { IsTrue result → IsAdmitted floor (map as_config configs.now) (as_span span.now) }
    ensures refuses { result ≡ false → IsNotAdmitted floor configs.now span.now }
{
    let from = later(floor, span.added);
    if !is_allowed(empty, configs, since, from, &span.tuple) {
        return false;
    }
    for place in 0..since {
        if !is_borne(&configs[place], span, from) {
            return false;
        }
    }
    true
}

/// Whether that holds of each span. For each kind of tuple the configurations are asked once.
pub(crate) fn are_admitted(
    alloc: Global,
    empty: &Config,
    configs: &[ReadConfig],
    floor: u64,
    spans: &[ReadSpan],
) -> bool
    requires empty { empty.now ≡ empty_config }
    requires rise { Rise configs.now }
    requires later { AreLater configs.now }
    ensures passes { IsTrue result → AreAdmitted floor configs.now spans.now }
    ensures refuses { result ≡ false → AreNotAdmitted floor configs.now spans.now }
{
    let mut kinds = Vec::new(alloc);
    for span in spans {
        let since = since_in(configs, &mut kinds, &span.tuple);
        if !is_admitted(empty, configs, since, floor, span) {
            return false;
        }
    }
    true
}
