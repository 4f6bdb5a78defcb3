//! A store's history, read from its tables.
ghost use Rattle.std.specs.Prelude.{◌≡◌, ◌≤◌, ◌*◌, false, nat_le, All, IfOk, IfErr, IsTrue, Err};
ghost use Rattle.names.specs.declared.limits.TheConstants.{MAX_REV};
ghost use Rattle.rows.specs.Loads.{retained_of, IsWithin};
ghost use Rattle.rows.specs.Retained.{newest};
ghost use Rattle.sqlite_tables.specs.Stored.{IsInOrder};
ghost use Rattle.store.specs.Written.{history_of, IsConfigAt, IsSpan};
ghost use Rattle.store.specs.inside.Reading.{as_span, as_config, as_written, current, IsHead, AreLater, ArePlaced};
ghost use Rattle.store.specs.Refused.{DeservedBy, IsWholeAbove, AreListed, AreSound, IsOfHistory, IsHistoryOf, IsTheHistoryOf, HasNoHistory};

use crate::committing::{has_room, read_parts};
use crate::configs::{are_admitted, are_ascending, config_up_to, read_configs};
use crate::head::read_head;
use crate::parts::{Head, Parts, ReadConfig, ReadSpan};
use crate::spans::{are_apart, read_spans};
use crate::unread::Unread;
use config::Config;
use names::Items;
use names::limits::MAX_TUPLES;
use rows::Loaded;
use sqlite_tables::Stored;
use std::alloc::Global;
use tables::TablesError;

// Whether the rows are enough for the revisions: each brings an event or a configuration.
fn are_enough(head: Head, configs: &[ReadConfig], spans: &[ReadSpan]) -> bool
    requires { IsHead head }
    ensures { result ≡ false → ¬ (IsWholeAbove (as_written head spans.now configs.now)) }
{
    let most = spans.len().saturating_mul(2).saturating_add(configs.len());
    head.newest - head.floor <= most as u64
}

fn are_placed(alloc: Global, head: Head, configs: &[ReadConfig], spans: &[ReadSpan]) -> bool
    requires { AreLater configs.now }
    ensures passes { IsTrue result → ArePlaced head configs.now spans.now }
    ensures refuses { result ≡ false → AreListed configs.now spans.now → ¬ (AreSound head configs.now spans.now) }
{
    if !are_apart(spans) || !are_ascending(head.floor, configs) {
        return false;
    }
    are_admitted(alloc, &Config::empty(alloc), configs, head.floor, spans)
}

fn build(
    alloc: Global,
    head: Head,
    configs: &[ReadConfig],
    spans: Vec<ReadSpan>,
) -> Result<Loaded, Unread>
    requires head { IsHead head }
    requires spans { All (λ s. IsSpan head.floor head.newest (as_span s)) spans.items }
    requires placed { ArePlaced head configs.now spans.items }
    requires later { AreLater configs.now }
    ensures same { IfOk result (λ l. retained_of l ≡ history_of (as_written head spans.items configs.now)) }
    ensures within { IfOk result IsWithin }
    ensures whole { IfOk result (λ _. IsWholeAbove (as_written head spans.items configs.now)) }
    ensures fault { IfErr result (DeservedBy (AreSound head configs.now spans.items)) }
{
    let parts = read_parts(alloc, head, configs, spans)?;
    let Parts { tuples, commits } = parts;
    if !has_room(tuples.as_slice().len(), &commits) {
        return Err(Unread::Fault);
    }
    let config = config_up_to(&Config::empty(alloc), configs, head.floor).again(alloc)?;
    Ok(Loaded {
        number: head.number,
        floor: head.floor,
        config,
        tuples: Items::of(tuples),
        commits: Items::of(commits),
    })
}

// Whether the spans that have not ended are within the limit of tuples.
fn is_small(spans: &[ReadSpan]) -> bool
    ensures { result ≡ nat_le (current spans.now) MAX_TUPLES }
{
    let mut current = 0;
    for span in spans {
        if span.removed == 0 {
            current += 1;
        }
    }
    current <= MAX_TUPLES as usize
}

// The history of rows that each are what a row may be.
fn judge(
    alloc: Global,
    head: Head,
    configs: &[ReadConfig],
    spans: Vec<ReadSpan>,
) -> Result<Loaded, Unread>
    requires head { IsHead head }
    requires configs { All (λ c. IsConfigAt head.newest (as_config c)) configs.now }
    requires spans { All (λ s. IsSpan head.floor head.newest (as_span s)) spans.items }
    ensures sound { IfOk result (λ _. AreSound head configs.now spans.items) }
    ensures same { IfOk result (λ l. retained_of l ≡ history_of (as_written head spans.items configs.now)) }
    ensures within { IfOk result IsWithin }
    ensures fault { IfErr result (DeservedBy (AreListed configs.now spans.items × AreSound head configs.now spans.items)) }
{
    let rows = spans.as_slice();
    if !are_enough(head, configs, rows)
        || !are_placed(alloc, head, configs, rows)
        || !is_small(rows)
    {
        return Err(Unread::Fault);
    }
    let loaded = build(alloc, head, configs, spans)?;
    Ok(loaded)
}

fn read_rows(alloc: Global, stored: Stored) -> Result<Loaded, Unread>
    ensures is_history { IfOk result (IsHistoryOf stored) }
    ensures same { IfOk result (IsTheHistoryOf stored) }
    ensures within { IfOk result IsWithin }
    ensures fault { IfErr result (DeservedBy (IsOfHistory stored)) }
{
    let Some(head) = read_head(stored.entries.as_slice()) else {
        return Err(Unread::Fault);
    };
    let configs = read_configs(alloc, head.newest, stored.configs.as_slice())?;
    let spans = read_spans(alloc, head, stored.spans)?;
    let loaded = judge(alloc, head, &configs, spans)?;
    Ok(loaded)
}

// Whether no span's rowid is above those of the newest revision, which has at most 256.
fn is_numbered(last_rowid: u64, loaded: &Loaded) -> bool
    requires { newest (retained_of loaded.now) ≤ MAX_REV }
    ensures { result ≡ nat_le last_rowid (256 * newest (retained_of loaded.now)) }
{
    let newest = loaded.floor + loaded.commits.as_slice().len() as u64;
    last_rowid <= 256 * newest
}

/// The history that rows of the tables are. Rows that are no history, and such as have a rowid above those of the
/// newest revision, are refused as a fault, and, where each list is in the order of [`Stored`], no others.
pub fn read(alloc: Global, stored: Stored) -> Result<Loaded, TablesError>
    ensures is_history { IfOk result (IsHistoryOf stored) }
    ensures same { IfOk result (IsTheHistoryOf stored) }
    ensures within { IfOk result IsWithin }
    ensures numbered { IfOk result (λ l. stored.last_rowid ≤ 256 * newest (retained_of l)) }
    ensures fault { result ≡ Err TablesError.Fault → IsInOrder stored → HasNoHistory stored }
{
    let last_rowid = stored.last_rowid;
    let loaded = match read_rows(alloc, stored) {
        Ok(loaded) => loaded,
        Err(Unread::Memory) => return Err(TablesError::Memory),
        Err(Unread::Fault) => return Err(TablesError::Fault),
    };
    if !is_numbered(last_rowid, &loaded) {
        return Err(TablesError::Fault);
    }
    Ok(loaded)
}
