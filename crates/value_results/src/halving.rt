// What is found in sets and maps, by halving.

ghost use Rattle.std.specs.Prelude.{◌≡◌};
ghost use Rattle.std.specs.Option.{option_copied};
ghost use Rattle.std.specs.List.Sorted.{IsStrictlySortedBy};
ghost use Rattle.abstract_syntax.specs.ValueOrder.{value_order};
ghost use Rattle.abstract_syntax.specs.ValueSets.{key_order};
ghost use Rattle.value_operators.specs.Members.{has as has_member, found as found_value};

use vdm_values::{Value, order};

/// Whether a set of these members has the value.
pub fn has(members: &[Value], value: &Value) -> bool
    requires { IsStrictlySortedBy value_order members.now }
    ensures { result ≡ has_member members.now value.now }
{
    members.binary_search(value).is_ok()
}

/// What a map of these pairs has at the key.
pub fn found<'a>(pairs: &'a [(Value, Value)], key: &Value) -> Option<&'a Value>
    requires { IsStrictlySortedBy key_order pairs.now }
    ensures { option_copied result ≡ found_value pairs.now key.now }
{
    match pairs.binary_search_by(|pair| order(&pair.0, key)) {
        Ok(place) => Some(&pairs[place].1),
        Err(_) => None,
    }
}
