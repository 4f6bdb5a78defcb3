//! What a connection's bytes ask for, as far as they have come.
ghost use Rattle.std.specs.Prelude.{◌≡◌, ◌<◌, length};
ghost use Rattle.httparse.specs.Grammar.{RequestHead};
ghost use Rattle.httparse.specs.Spans.{IsRequestAt, IsRequestWithin, IsRequestOf};
ghost use Rattle.answers.specs.declared.end.End.TheVariants.{Asked};
ghost use Rattle.http_api.specs.Heads.{max_head};
ghost use Rattle.http_api.specs.Routes.{table};
ghost use Rattle.http_api.specs.Connection.{NoRequest};
ghost use Rattle.http_api.specs.inside.Looking.{AsksFor, IfHeading, IfRefused, OnPartial, refusal_text, HasHeading, Waits};

use crate::framing::{Framing, asks_to_close, framing_of};
use crate::head::{HeadRead, find_head, first_bytes};
use crate::limits::MAX_FIELDS;
use crate::routing::call_of;
use httparse::spans::{EMPTY_HEADER_SPAN, HeaderSpan, RequestSpans};
use matchit::Router;
use names::Call;
use names::limits::MAX_BODY_LEN;

/// What a head asks for.
#[derive(Clone, Copy)]
pub struct Heading {
    /// The length of the head.
    pub head: usize,
    /// The length of the body behind it.
    pub body: usize,
    /// The call that its method and target name.
    pub call: Option<Call>,
    /// Whether it asks for the end of the connection.
    pub closes: bool,
}

/// Why a request is refused before its body is read.
#[derive(Clone, Copy)]
pub enum Refused {
    Malformed,
    NoLength,
    TooLarge,
}

/// What stands at the front of the bytes.
pub enum Looked {
    Request(Heading),
    Refused(Refused),
    /// Nothing, or the beginning of a head.
    Partial,
}

fn what_it_asks(
    routes: &Router<Call>,
    first: &[u8],
    spans: RequestSpans,
    fields: &[HeaderSpan],
) -> Looked
    requires routes { routes.now ≡ table }
    requires found { IsRequestOf first.now fields.now spans }
    requires within { IsRequestWithin first.now fields.now spans }
    ensures { (h : RequestHead) → IsRequestAt first.now fields.now spans h → AsksFor h spans.len result }
{
    let fields = &fields[..spans.headers];
    let method = spans.method.of(first);
    let size = match framing_of(first, method, fields) {
        Framing::Unclear => return Looked::Refused(Refused::Malformed),
        Framing::Missing => return Looked::Refused(Refused::NoLength),
        Framing::Sized(size) => size,
    };
    if size > MAX_BODY_LEN as u64 {
        return Looked::Refused(Refused::TooLarge);
    }
    Looked::Request(Heading {
        head: spans.len,
        body: size as usize,
        call: call_of(routes, method, spans.path.of(first)),
        closes: asks_to_close(first, spans.version, fields),
    })
}

/// Looks for a head at the front of the bytes, and for what it asks.
pub fn look(routes: &Router<Call>, bytes: &[u8]) -> Looked
    requires routes { routes.now ≡ table }
    ensures request { IfHeading result (λ heading. (h : RequestHead) × HasHeading bytes.now h heading) }
    ensures refused { IfRefused result (λ why. NoRequest bytes.now (refusal_text why) Asked) }
    ensures partial { OnPartial result ((length bytes.now < max_head) × Waits bytes.now) }
{
    let mut fields = [EMPTY_HEADER_SPAN; MAX_FIELDS];
    match find_head(bytes, &mut fields) {
        HeadRead::Head(spans) => what_it_asks(routes, first_bytes(bytes), spans, &fields),
        HeadRead::Unfinished => Looked::Partial,
        HeadRead::Hopeless => Looked::Refused(Refused::Malformed),
    }
}
