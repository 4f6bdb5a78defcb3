//! The members of values.
ghost use Rattle.std.specs.Prelude.{◌≡◌, map, option_map, string_bytes, nat_eq};
ghost use Rattle.std.specs.List.{list_any, list_all};
ghost use Rattle.std.specs.BTreeMap.{keys};
ghost use Rattle.std.specs.Cmp.Lexicographic.{pointwise};
ghost use Rattle.serde_json.specs.View.{view};
ghost use Rattle.config_text.specs.Objects.{has_only, text_at};

use serde_json::{Map, Value};

fn is_named(key: &str, names: &[&str]) -> bool
    ensures { result ≡ list_any (λ n. pointwise nat_eq key.now n.now) names.now }
{
    names.iter().any(|n| key == *n)
}

fn all_are_named(members: &Map<String, Value>, names: &[&str]) -> bool
    ensures { result ≡ list_all (λ k. list_any (λ n. pointwise nat_eq (string_bytes k) n.now) names.now)
        (keys members.now) }
{
    members.keys().all(|k| is_named(k.as_str(), names))
}

/// Whether it is an object with no members but those named.
pub fn has_only_members(value: &Value, names: &[&str]) -> bool
    ensures { result ≡ has_only (map (λ n. n.now) names.now) (view value.now) }
{
    let Some(members) = value.as_object() else {
        return false;
    };
    all_are_named(members, names)
}

/// The text of a member.
pub fn text_at<'a>(value: &'a Value, key: &str) -> Option<&'a str>
    ensures { option_map (λ t. t.now) result ≡ text_at key.now (view value.now) }
{
    let member = value.get(key)?;
    member.as_str()
}
