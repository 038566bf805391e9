//! The members of the objects of a history file.

ghost use Rattle.std.specs.Prelude.{◌≡◌, map, option_map};
ghost use Rattle.serde_json.specs.View.{view, items_view};
ghost use Rattle.serde_json.specs.Find.{as_array, as_object, as_str};
ghost use Rattle.lab_history_file.specs.Format.{at_key, has_keys as has_these_keys};

use serde_json::Value as Json;

/// Whether a value is an object with exactly these keys, which are given in the order of their bytes.
#[tactic(auto, using(crate::proofs::Keys::keys_are, crate::proofs::Keys::no_key_left))]
pub fn has_keys(json: &Json, names: &[&str]) -> bool
    ensures { result ≡ has_these_keys (map (λ name. name.now) names.now) (as_object (view json.now)) }
{
    let Some(members) = json.as_object() else {
        return false;
    };
    let mut keys = members.keys();
    for name in names {
        let Some(key) = keys.next() else {
            return false;
        };
        if key.as_str() != *name {
            return false;
        }
    }
    keys.next().is_none()
}

/// The text at a key.
pub fn text_at<'v>(json: &'v Json, key: &str) -> Option<&'v str>
    ensures { option_map (λ text. text.now) result ≡ as_str (at_key key.now (view json.now)) }
{
    json.get(key)?.as_str()
}

/// The members of the array at a key.
pub fn items_at<'v>(json: &'v Json, key: &str) -> Option<&'v [Json]>
    ensures { option_map (λ items. items_view items.now) result ≡ as_array (at_key key.now (view json.now)) }
{
    Some(json.get(key)?.as_array()?.as_slice())
}
