//! Names of namespaces and relations.
ghost use Rattle.std.specs.Prelude.{◌≡◌, IsTrue, Some, IfOk, IfErr, nat_eq, refl, false};
ghost use Rattle.std.specs.Ordering.{nat_cmp};
ghost use Rattle.std.specs.List.{list_all};
ghost use Rattle.std.specs.Cmp.Lexicographic.{pointwise, slice_cmp, nat_list_eq_equiv, nat_list_cmp_total, texts_ties, texts_po};
ghost use Rattle.std.specs.Cmp.{partial_equiv_from_equiv};
ghost use Rattle.std.specs.Cmp.Rules.{hashing};
ghost use Rattle.std.specs.Hash as fed;
ghost use Rattle.std.proofs.Common.{rules};
ghost use Rattle.names.specs.Refusals.{IsMalformed};
ghost use Rattle.names.specs.Names.{is_name, is_name_byte, is_lower};

use crate::Refusal;
use crate::limits::MAX_NAME_LEN;
use arrayvec::ArrayString;
use std::alloc::AllocError;
use std::cmp::Ordering;
use std::fmt;
use std::hash::{Hash, Hasher};
use std::marker::Model;

/// The name of a namespace or a relation: a small letter, and then up to 31 small letters, digits and
/// underscores. Names are ordered by their bytes.
#[derive(Debug, Drop)]
pub struct Name {
    text: ArrayString<32>,
}

impl Model for Name {
    ghost use Rattle.std.specs.Prelude.{ℕ, List, IsTrue};
    ghost use Rattle.names.specs.Names.{is_name};

    ghost Value = { List ℕ };

    ghost view = { λ n. n.text.bytes };

    ghost invariant = { λ n. IsTrue (is_name n.text.bytes) };
}

impl Name {
    /// Reads a name. The text is refused as malformed exactly where it is none.
    pub fn parse(text: &str) -> Result<Name, Refusal>
        ensures ok { IfOk result (λ n. (n ≡ text.now) × IsTrue (is_name text.now)) }
        ensures err { IfErr result (λ e. IsMalformed (is_name text.now ≡ false) e) }
    {
        if !is_spelled(text.as_bytes()) {
            return Err(Refusal::Malformed);
        }
        Ok(Name::spelled(text))
    }

    /// The name that a text is known to spell: it is not tested again.
    pub fn spelled(text: &str) -> Name
        requires { IsTrue (is_name text.now) }
        ensures { result ≡ text.now }
    {
        let mut own = ArrayString::new();
        own.push_str(text);
        Name { text: own }
    }

    /// The same name. A copy takes no memory, so nothing refuses it.
    pub fn again(&self) -> Name
        ensures { result ≡ self.now }
    {
        Name { text: self.text }
    }

    pub fn as_str(&self) -> &str
        ensures text { result.now ≡ self.now }
        ensures spelled { IsTrue (is_name self.now) }
    {
        self.text.as_str()
    }
}

impl Clone for Name {
    ghost is_clone = { λ x y. y ≡ x };

    fn clone(&self) -> Result<Name, AllocError> {
        Ok(Name { text: self.text })
    }
}

impl PartialEq for Name {
    ghost eq = { pointwise nat_eq };

    ghost laws = { partial_equiv_from_equiv nat_list_eq_equiv };

    fn eq(&self, other: &Name) -> bool {
        self.as_str() == other.as_str()
    }
}

impl Eq for Name {
    ghost laws = { nat_list_eq_equiv };
}

impl Hash for Name {
    ghost hash_input = { fed.str };

    ghost respects_eq = { Prim.search (hashing, rules) };

    fn hash<H: Hasher>(&self, state: &mut H) {
        self.as_str().hash(state);
    }
}

impl PartialOrd for Name {
    ghost partial_cmp = { λ x y. Some (slice_cmp nat_cmp x y) };

    ghost laws = { texts_po };

    fn partial_cmp(&self, other: &Name) -> Option<Ordering> {
        Some(self.cmp(other))
    }
}

impl Ord for Name {
    ghost cmp = { slice_cmp nat_cmp };

    ghost total = { nat_list_cmp_total };

    ghost matches_partial_cmp = { λ x y. refl };

    ghost matches_eq = { texts_ties };

    fn cmp(&self, other: &Name) -> Ordering {
        self.as_str().cmp(other.as_str())
    }
}

impl fmt::Display for Name {
    ghost output = { λ n. Some n };

    fn fmt<W: fmt::Write>(&self, f: &mut fmt::Formatter<W>) -> fmt::Result {
        f.write_str(self.as_str())
    }
}

fn is_spelled(text: &[u8]) -> bool
    ensures { result ≡ is_name text.now }
{
    if text.is_empty() || text.len() > MAX_NAME_LEN {
        return false;
    }
    is_lower_code(text[0]) && are_allowed(text)
}

fn are_allowed(text: &[u8]) -> bool
    ensures { result ≡ list_all is_name_byte text.now }
{
    text.iter().all(|b| is_name_code(*b))
}

fn is_lower_code(b: u8) -> bool
    ensures { result ≡ is_lower b }
{
    97 <= b && b <= 122
}

/// Whether a name may have the byte.
pub(crate) fn is_name_code(b: u8) -> bool
    ensures { result ≡ is_name_byte b }
{
    is_lower_code(b) || (48 <= b && b <= 57) || b == 95
}
