//! The body of a `trim`.
ghost use Rattle.std.specs.Prelude.{◌≡◌, IsSomeAnd, IfOk, IfErr, codes};
ghost use Rattle.serde_json.specs.View.{view};
ghost use Rattle.bodies.specs.Requests.{only_text, IsZookieOf};
ghost use Rattle.bodies.specs.Trimming.{AsksTrim, TrimBodyCause};
ghost use Rattle.bodies.specs.inside.Parts.{TextCause};

use crate::requests::{only_text, read_value, zookie_of};
use names::Refusal;
use serde_json::Value;
use std::alloc::Global;
use zookie::Zookie;

/// The zookie that the floor is.
fn floor_of(value: &Value) -> Result<Zookie, Refusal>
    ensures ok { IfOk result (λ z. IsSomeAnd (only_text (codes "floor") (view value.now)) (λ text. IsZookieOf text z)) }
    ensures err { IfErr result (TextCause (only_text (codes "floor") (view value.now))) }
{
    match only_text(value, "floor") {
        None => Err(Refusal::Malformed),
        Some(text) => {
            let zookie = zookie_of(text)?;
            Ok(zookie)
        }
    }
}

/// What a body of `trim` asks: the revision that is to be the floor. `BadZookie` comes only where all else is of the form.
pub fn trim_body(alloc: Global, body: &[u8]) -> Result<Zookie, Refusal>
    ensures ok { IfOk result (λ floor. AsksTrim body.now floor) }
    ensures err { IfErr result (TrimBodyCause body.now) }
{
    let value = read_value(alloc, body)?;
    let floor = floor_of(&value)?;
    Ok(floor)
}
