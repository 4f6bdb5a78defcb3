//! Configurations, read from bytes.
ghost use Rattle.std.specs.Prelude.{◌≤◌, IfOk, IfErr, IsTrue, All, length};
ghost use Rattle.serde_json.specs.View.{view};
ghost use Rattle.config_text.specs.Reading.{Reads, Says, Describes, ReadingRefused};
ghost use Rattle.config_text.specs.Keyed.{AreOrdered};
ghost use Rattle.config_text.specs.Order.{IsOrdered};
ghost use Rattle.config_text.specs.Size.{has_parts};
ghost use Rattle.config_text.specs.Parts.{parts_of};
ghost use Rattle.config_text.specs.Texts.{config_texts};

use crate::draft::Draft;
use crate::parts::{Parts, read_parts};
use crate::shape::read_config;
use names::limits::MAX_CONFIG_LEN;
use names::{Cause, Refusal};
use serde_json::Value;
use std::alloc::Global;
use std::str;

fn read_value(alloc: Global, bytes: &[u8]) -> Result<Value, Refusal>
    ensures size { IfOk result (λ _. length bytes.now ≤ MAX_CONFIG_LEN) }
    ensures ok { IfOk result (λ v. Reads bytes.now (view v)) }
    ensures err { IfErr result (λ e. ReadingRefused bytes.now e) }
{
    if bytes.len() > MAX_CONFIG_LEN {
        return Err(Refusal::ConfigRefused(Cause::Size));
    }
    let Ok(text) = str::from_utf8(bytes) else {
        return Err(Refusal::ConfigRefused(Cause::Json));
    };
    match Value::from_str(alloc, text) {
        Ok(value) => Ok(value),
        Err(e) => {
            if e.is_memory() {
                Err(Refusal::Memory)
            } else {
                Err(Refusal::ConfigRefused(Cause::Json))
            }
        }
    }
}

fn read_draft(alloc: Global, bytes: &[u8]) -> Result<Draft, Refusal>
    ensures size { IfOk result (λ _. length bytes.now ≤ MAX_CONFIG_LEN) }
    ensures ok { IfOk result (λ d. Says bytes.now (config_texts d)) }
    ensures ordered { IfOk result (λ d. AreOrdered (config_texts d)) }
    ensures err { IfErr result (λ e. ReadingRefused bytes.now e) }
{
    let value = read_value(alloc, bytes)?;
    let Some(draft) = read_config(alloc, &value)? else {
        return Err(Refusal::ConfigRefused(Cause::Shape));
    };
    Ok(draft)
}

/// The configuration of the bytes, valid or not. Bytes of none are refused for the first of these that
/// applies: they are over 65,536 (`size`), they are no JSON (`json`), the value is of another form
/// (`shape`), a text in a name's place is no name (`name`).
pub fn read_configuration(alloc: Global, bytes: &[u8]) -> Result<Parts, Refusal>
    ensures size { IfOk result (λ _. length bytes.now ≤ MAX_CONFIG_LEN) }
    ensures ok { IfOk result (λ p. Describes bytes.now (parts_of p)) }
    ensures ordered { IfOk result (λ p. IsOrdered (parts_of p)) }
    ensures parts { IfOk result (λ p. All (λ d. IsTrue (has_parts d.form)) (parts_of p).relations) }
    ensures err { IfErr result (λ e. ReadingRefused bytes.now e) }
{
    let draft = read_draft(alloc, bytes)?;
    match read_parts(alloc, &draft) {
        Ok(parts) => Ok(parts),
        Err(Refusal::Memory) => Err(Refusal::Memory),
        Err(_) => Err(Refusal::ConfigRefused(Cause::Name)),
    }
}
