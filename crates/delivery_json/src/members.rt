//! The members of an object.

ghost use Rattle.std.specs.Prelude.{◌≡◌, map, string_bytes};
ghost use Rattle.std.specs.BTreeMap.{keys};
ghost use Rattle.std.specs.List.{list_all, list_any};
ghost use Rattle.std.specs.Str.{bytes_eq};
ghost use Rattle.serde_json.specs.View.{members_view, view};
ghost use Rattle.serde_json.specs.Find.{get};
ghost use Rattle.delivery_json.specs.Members.{has_only, integer_in, lone_integer};

use points::is_known_key;
use serde_json::{Map, Value};

/// The integer that a value is, as `as_i64` says it.
pub(crate) fn integer_in(value: &Value) -> Option<i64>
    ensures { result ≡ integer_in (view value.now) }
{
    value.as_i64()
}

/// Whether the object has no key but these.
pub fn has_only(members: &Map<String, Value>, known: &[&str]) -> bool
    ensures { result ≡ has_only (map (λ k. k.now) known.now) (members_view members.now.entries) }
{
    each_key_is_among(known, members)
}

/// The integer of an object that has this key, and no other.
#[tactic(auto, unfolding(crate::specs::Members::lone_integer))]
pub fn lone_integer(value: &Value, key: &str) -> Option<i64>
    ensures { result ≡ lone_integer key.now (view value.now) }
{
    let members = value.as_object()?;
    let number = integer_in(value.get(key)?)?;
    if has_only(members, &[key]) {
        Some(number)
    } else {
        None
    }
}

fn each_key_is_among(known: &[&str], members: &Map<String, Value>) -> bool
    ensures { result ≡ list_all (λ key. list_any (λ k. bytes_eq k.now (string_bytes key)) known.now)
        (keys members.now) }
{
    members.keys().all(|key| is_known_key(known, key.as_str()))
}
