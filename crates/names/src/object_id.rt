//! Ids of objects in their namespaces.
ghost use Rattle.std.specs.Prelude.{◌≡◌, IsTrue, Some, IfOk, IfErr, nat_eq, refl, false};
ghost use Rattle.std.specs.Ordering.{nat_cmp};
ghost use Rattle.std.specs.List.{list_all};
ghost use Rattle.std.specs.Cmp.Lexicographic.{pointwise, slice_cmp, nat_list_eq_equiv, nat_list_cmp_total, texts_ties, texts_po};
ghost use Rattle.std.specs.Cmp.{partial_equiv_from_equiv};
ghost use Rattle.std.specs.Cmp.Rules.{hashing};
ghost use Rattle.std.specs.Hash as fed;
ghost use Rattle.std.proofs.Common.{rules};
ghost use Rattle.names.specs.Refusals.{IsMalformed};
ghost use Rattle.names.specs.Names.{is_id, is_id_byte};

use crate::Refusal;
use crate::limits::MAX_ID_LEN;
use crate::name::is_name_code;
use arrayvec::ArrayString;
use std::alloc::AllocError;
use std::cmp::Ordering;
use std::fmt;
use std::hash::{Hash, Hasher};
use std::marker::Model;

/// The id of an object in its namespace: 1 to 64 letters, digits, underscores, dots and dashes. Ids are
/// ordered by their bytes.
#[derive(Debug, Drop)]
pub struct ObjectId {
    text: ArrayString<64>,
}

impl Model for ObjectId {
    ghost use Rattle.std.specs.Prelude.{ℕ, List, IsTrue};
    ghost use Rattle.names.specs.Names.{is_id};

    ghost Value = { List ℕ };

    ghost view = { λ n. n.text.bytes };

    ghost invariant = { λ n. IsTrue (is_id n.text.bytes) };
}

impl ObjectId {
    /// Reads an object's id. The text is refused as malformed exactly where it is none.
    pub fn parse(text: &str) -> Result<ObjectId, Refusal>
        ensures ok { IfOk result (λ n. (n ≡ text.now) × IsTrue (is_id text.now)) }
        ensures err { IfErr result (λ e. IsMalformed (is_id text.now ≡ false) e) }
    {
        if !is_spelled(text.as_bytes()) {
            return Err(Refusal::Malformed);
        }
        Ok(ObjectId::spelled(text))
    }

    /// The id that a text is known to spell: it is not tested again.
    pub fn spelled(text: &str) -> ObjectId
        requires { IsTrue (is_id text.now) }
        ensures { result ≡ text.now }
    {
        let mut own = ArrayString::new();
        own.push_str(text);
        ObjectId { text: own }
    }

    /// The same id. A copy takes no memory, so nothing refuses it.
    pub fn again(&self) -> ObjectId
        ensures { result ≡ self.now }
    {
        ObjectId { text: self.text }
    }

    pub fn as_str(&self) -> &str
        ensures text { result.now ≡ self.now }
        ensures spelled { IsTrue (is_id self.now) }
    {
        self.text.as_str()
    }
}

impl Clone for ObjectId {
    ghost is_clone = { λ x y. y ≡ x };

    fn clone(&self) -> Result<ObjectId, AllocError> {
        Ok(ObjectId { text: self.text })
    }
}

impl PartialEq for ObjectId {
    ghost eq = { pointwise nat_eq };

    ghost laws = { partial_equiv_from_equiv nat_list_eq_equiv };

    fn eq(&self, other: &ObjectId) -> bool {
        self.as_str() == other.as_str()
    }
}

impl Eq for ObjectId {
    ghost laws = { nat_list_eq_equiv };
}

impl Hash for ObjectId {
    ghost hash_input = { fed.str };

    ghost respects_eq = { Prim.search (hashing, rules) };

    fn hash<H: Hasher>(&self, state: &mut H) {
        self.as_str().hash(state);
    }
}

impl PartialOrd for ObjectId {
    ghost partial_cmp = { λ x y. Some (slice_cmp nat_cmp x y) };

    ghost laws = { texts_po };

    fn partial_cmp(&self, other: &ObjectId) -> Option<Ordering> {
        Some(self.cmp(other))
    }
}

impl Ord for ObjectId {
    ghost cmp = { slice_cmp nat_cmp };

    ghost total = { nat_list_cmp_total };

    ghost matches_partial_cmp = { λ x y. refl };

    ghost matches_eq = { texts_ties };

    fn cmp(&self, other: &ObjectId) -> Ordering {
        self.as_str().cmp(other.as_str())
    }
}

impl fmt::Display for ObjectId {
    ghost output = { λ n. Some n };

    fn fmt<W: fmt::Write>(&self, f: &mut fmt::Formatter<W>) -> fmt::Result {
        f.write_str(self.as_str())
    }
}

pub(crate) fn is_spelled(text: &[u8]) -> bool
    ensures { result ≡ is_id text.now }
{
    if text.is_empty() || text.len() > MAX_ID_LEN {
        return false;
    }
    are_allowed(text)
}

fn are_allowed(text: &[u8]) -> bool
    ensures { result ≡ list_all is_id_byte text.now }
{
    text.iter().all(|b| is_id_code(*b))
}

fn is_id_code(b: u8) -> bool
    ensures { result ≡ is_id_byte b }
{
    is_name_code(b) || (65 <= b && b <= 90) || b == 46 || b == 45
}
