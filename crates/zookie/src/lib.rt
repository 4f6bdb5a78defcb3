//! The token that callers keep of what they have seen: a store and a revision, as an opaque text of 23
//! letters.
//!
//! After the zookie of Pang et al., "Zanzibar", USENIX ATC 2019, section 2.2.
#![tactic(auto)]

ghost use Rattle.std.specs.Prelude.{◌≡◌, ◌↔◌, ℕ, ◌<◌, ◌^◌, IsTrue, Ok, Some, IfErr, IfOk, string_bytes};
ghost use Rattle.names.specs.declared.refusal.Refusal.TheVariants.{BadZookie};
ghost use Rattle.zookie.specs.Text.{zookie_text, zookie_bytes, text_of, IsTextOf};
ghost use Rattle.zookie.specs.Zookies.{zookie_of};

use base64::engine::general_purpose::URL_SAFE_NO_PAD;
use names::Refusal;
use std::alloc::{AllocError, Global};

mod consistency;

pub use consistency::Consistency;

// The version of what is written. Version 1 is read as the same.
const WRITTEN: u8 = 2;

/// A store's number and a revision of it.
#[derive(Clone, Copy, Debug, PartialEq, Eq)]
pub struct Zookie {
    pub store: u64,
    pub rev: u64,
}

impl Zookie {
    // The bytes of which its text of a version is made.
    fn bytes(&self, version: u8) -> [u8; 17]
        ensures { result ≡ zookie_bytes version self.now.store self.now.rev }
    {
        let s = self.store.to_be_bytes();
        let r = self.rev.to_be_bytes();
        [
            version, s[0], s[1], s[2], s[3], s[4], s[5], s[6], s[7], r[0], r[1], r[2], r[3], r[4],
            r[5], r[6], r[7],
        ]
    }

    // Its text of a version.
    fn text_of(&self, version: u8) -> [u8; 23]
        ensures { result ≡ text_of version self.now.store self.now.rev }
    {
        let mut text = [0u8; 23];
        let _ = URL_SAFE_NO_PAD.encode_slice(&self.bytes(version), &mut text);
        text
    }

    /// Its text, which takes no memory.
    pub fn text(&self) -> [u8; 23]
        ensures { result ≡ zookie_text self.now.store self.now.rev }
    {
        self.text_of(WRITTEN)
    }

    // Whether it is its text of one of the versions.
    fn has_text(&self, text: &str) -> bool
        ensures { IsTrue result ↔ IsTextOf text.now self.now.store self.now.rev }
    {
        let text = text.as_bytes();
        self.text_of(1).as_slice() == text || self.text_of(WRITTEN).as_slice() == text
    }

    /// Its text, as a `String`. It fails only where the room for that is refused.
    pub fn to_text(&self, alloc: Global) -> Result<String, AllocError>
        ensures { IfOk result (λ s. string_bytes s ≡ zookie_text self.now.store self.now.rev) }
    {
        URL_SAFE_NO_PAD.encode(alloc, &self.bytes(WRITTEN))
    }

    // The zookie with these bytes, whatever the first of them is.
    fn of_bytes(bytes: &[u8; 17]) -> Zookie
        ensures { (version store rev : ℕ) → store < 2 ^ 64 → rev < 2 ^ 64
            → bytes.now ≡ zookie_bytes version store rev → result ≡ zookie_of store rev }
    {
        Zookie {
            store: u64::from_be_bytes([
                bytes[1], bytes[2], bytes[3], bytes[4], bytes[5], bytes[6], bytes[7], bytes[8],
            ]),
            rev: u64::from_be_bytes([
                bytes[9], bytes[10], bytes[11], bytes[12], bytes[13], bytes[14], bytes[15],
                bytes[16],
            ]),
        }
    }

    // The one zookie whose text it can be.
    fn decoded(text: &str) -> Option<Zookie>
        ensures { (store rev : ℕ) → store < 2 ^ 64 → rev < 2 ^ 64
            → IsTextOf text.now store rev → result ≡ Some (zookie_of store rev) }
    {
        let mut bytes = [0u8; 17];
        match URL_SAFE_NO_PAD.decode_slice(text.as_bytes(), &mut bytes) {
            Ok(_) => Some(Zookie::of_bytes(&bytes)),
            Err(_) => None,
        }
    }

    /// The zookie of which it is the text, of either version. It takes no memory.
    pub fn read(text: &str) -> Result<Zookie, Refusal>
        ensures ok { IfOk result (λ z. IsTextOf text.now z.store z.rev) }
        ensures err { IfErr result (λ e. (e ≡ BadZookie) × ((store rev : ℕ) → store < 2 ^ 64
            → rev < 2 ^ 64 → ¬ (IsTextOf text.now store rev))) }
        ensures round_trip { (store rev : ℕ) → store < 2 ^ 64 → rev < 2 ^ 64
            → IsTextOf text.now store rev → result ≡ Ok (zookie_of store rev) }
    {
        match Zookie::decoded(text) {
            Some(zookie) if zookie.has_text(text) => Ok(zookie),
            _ => Err(Refusal::BadZookie),
        }
    }
}
