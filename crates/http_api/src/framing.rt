//! What the fields of a head say: of the length of its body, and of the end of the connection.
ghost use Rattle.std.specs.Prelude.{◌≡◌, All, length, map, bytes_eq, codes};
ghost use Rattle.std.specs.List.{list_any};
ghost use Rattle.std.specs.Char.{to_ascii_lowercase};
ghost use Rattle.httparse.specs.Spans.{IsHeaderWithin};
ghost use Rattle.http_api.specs.Heads.{in_lower_case, is_named, values, framing_by, framing, is_close, asks_to_close};
ghost use Rattle.http_api.specs.inside.Finding.{pairs_at};

use crate::length::length_of;
use httparse::spans::HeaderSpan;

/// What a head says of the length of its body.
#[derive(Clone, Copy, Debug, PartialEq, Eq)]
pub enum Framing {
    /// It has a coding, or not exactly one length, or one that is no length.
    Unclear,
    /// It wants a length and has none.
    Missing,
    /// So many bytes.
    Sized(u64),
}

// Whether the text is this one, which is in lower case, without regard to ASCII case.
fn is_text(text: &[u8], lower: &[u8]) -> bool
    requires lower { map to_ascii_lowercase lower.now ≡ lower.now }
    ensures { result ≡ bytes_eq (in_lower_case text.now) lower.now }
{
    text.eq_ignore_ascii_case(lower)
}

// Whether a field has this name.
fn has_field(bytes: &[u8], fields: &[HeaderSpan], name: &[u8]) -> bool
    requires within { All (IsHeaderWithin (length bytes.now)) fields.now }
    requires lower { map to_ascii_lowercase name.now ≡ name.now }
    ensures { result ≡ list_any (is_named name.now) (pairs_at bytes.now fields.now) }
{
    let mut rest = fields;
    while let Some((field, others)) = rest.split_first() {
        if is_text(field.name.of(bytes), name) {
            return true;
        }
        rest = others;
    }
    false
}

// Whether a field asks for the end of the connection.
fn says_close(bytes: &[u8], fields: &[HeaderSpan]) -> bool
    requires within { All (IsHeaderWithin (length bytes.now)) fields.now }
    ensures { result ≡ list_any is_close (values (codes "connection") (pairs_at bytes.now fields.now)) }
{
    let mut rest = fields;
    while let Some((field, others)) = rest.split_first() {
        if is_text(field.name.of(bytes), b"connection")
            && is_text(field.value.of(bytes), b"close")
        {
            return true;
        }
        rest = others;
    }
    false
}

/// Whether a head of this version, 1.0 or 1.1, with these fields asks for the end of the connection.
pub fn asks_to_close(bytes: &[u8], minor: u8, fields: &[HeaderSpan]) -> bool
    requires within { All (IsHeaderWithin (length bytes.now)) fields.now }
    ensures { result ≡ asks_to_close minor (pairs_at bytes.now fields.now) }
{
    minor == 0 || says_close(bytes, fields)
}

// What the values of Content-Length say.
fn framing_by(bytes: &[u8], posts: bool, fields: &[HeaderSpan]) -> Framing
    requires within { All (IsHeaderWithin (length bytes.now)) fields.now }
    ensures { result ≡ framing_by posts (values (codes "content-length") (pairs_at bytes.now fields.now)) }
{
    let mut rest = fields;
    while let Some((field, others)) = rest.split_first() {
        if is_text(field.name.of(bytes), b"content-length") {
            if has_field(bytes, others, b"content-length") {
                return Framing::Unclear;
            }
            return match length_of(field.value.of(bytes)) {
                Some(n) => Framing::Sized(n),
                None => Framing::Unclear,
            };
        }
        rest = others;
    }
    if posts {
        Framing::Missing
    } else {
        Framing::Sized(0)
    }
}

/// What a head of this method with these fields says of the length of its body.
pub fn framing_of(bytes: &[u8], method: &[u8], fields: &[HeaderSpan]) -> Framing
    requires within { All (IsHeaderWithin (length bytes.now)) fields.now }
    ensures { result ≡ framing method.now (pairs_at bytes.now fields.now) }
{
    if has_field(bytes, fields, b"transfer-encoding") {
        return Framing::Unclear;
    }
    framing_by(bytes, method == b"POST".as_slice(), fields)
}
