//! Maps to integers and JSON objects. A value may be seen as members in any order, so that `ascends` says, beside
//! `entries`, that the members of a map made from a value ascend.
ghost use Rattle.std.specs.Prelude.{◌≡◌, ℕ, ℤ, List, [], Some, None, IfOk, IfErr, IsOk, OnOk, MatchOption, string_bytes};
ghost use Rattle.serde_json.specs.Data.{number, put as with_member};
ghost use Rattle.serde_json.specs.Find.{get, of_integer};
ghost use Rattle.serde_json.specs.View.{view, members_view};
ghost use Rattle.starlark_hash.specs.Insert.{insert_entry};
ghost use Rattle.std.specs.List.Sorted.{IsStrictlySortedBy};
ghost use Rattle.std.specs.Option.{option_map};
ghost use Rattle.std.specs.Str.{bytes_eq};
ghost use Rattle.starlark_map.specs.JsonObjects.{object_of, last_value, integer_of, map_entries, IsMapFault};
ghost use Rattle.starlark_map.specs.JsonTexts.{own_text, text_pairs_of, text_cmp, text_entries, texts_of};

use super::fault::JsonFault;
use serde_json::{Map, Value};
use starlark_small::SmallMap;
use std::alloc::{AllocError, Global};

/// The object of a map: each key once, with the value of its last index, since a key may be stored under two hashes. It is
/// refused only if memory is refused, and then nothing is made; an empty map needs no memory.
pub fn map_to_value(alloc: Global, map: &SmallMap<String, i64>) -> Result<Value, AllocError>
    ensures object { IfOk result (λ value. view value ≡ object_of (text_pairs_of map.now.entries)) }
    ensures members { IfOk result (λ value. (key : List ℕ) → get key (view value) ≡ option_map (λ n. number (of_integer n)) (last_value (text_pairs_of map.now.entries) key)) }
    ensures succeeds { map.now.entries ≡ [] → IsOk result }
{
    let mut members = Map::new(alloc);
    for (key, value) in map.iter() {
        put_member(&mut members, key, *value)?;
    }
    Ok(Value::from(members))
}

// Puts a copy of the key, with the value, into an object.
fn put_member(members: &mut Map<String, Value>, key: &String, value: i64) -> Result<(), AllocError>
    ensures { OnOk result (members_view members.new.entries ≡ with_member (string_bytes key.now) (number (of_integer value)) (members_view members.old.entries)) }
{
    let name = key.clone()?;
    drop(members.insert(name, Value::from(value))?);
    Ok(())
}

/// The map of an object: its members in ascending order of their keys, each under its key's own hash. Any other value is
/// `NotObject`. It is `NotInteger` if a member's value is no integer of 64 bits, and memory sufficed for the members before
/// it. It is `Memory` if memory was refused at a member: its value and those before it are integers. No result shows which
/// member it was. An empty object is never refused. On a fault nothing is made.
pub fn map_from_value(alloc: Global, value: &Value) -> Result<SmallMap<String, i64>, JsonFault>
    ensures entries { IfOk result (λ map. map_entries (view value.now) ≡ Some (text_entries map.entries)) }
    ensures ascends { IfOk result (λ map. IsStrictlySortedBy text_cmp (texts_of map.entries)) }
    ensures fault { IfErr result (IsMapFault (view value.now)) }
{
    let Some(members) = value.as_object() else {
        return Err(JsonFault::NotObject);
    };
    let mut map = SmallMap::new(alloc);
    for (key, member) in members.iter() {
        insert_member(&mut map, key, member)?;
    }
    Ok(map)
}

// Inserts a copy of the key with the member's integer. Memory is asked for only after the integer was found.
fn insert_member(
    map: &mut SmallMap<String, i64>,
    key: &String,
    member: &Value,
) -> Result<(), JsonFault>
    ensures ok { OnOk result ((n : ℤ) × (integer_of (view member.now) ≡ Some n) × (text_entries map.new.entries ≡ insert_entry bytes_eq (text_entries map.old.entries) (own_text (string_bytes key.now)) n)) }
    ensures err { IfErr result (λ fault. MatchOption (integer_of (view member.now)) (fault ≡ JsonFault.NotInteger) (λ _. fault ≡ JsonFault.Memory)) }
{
    let Some(value) = member.as_i64() else {
        return Err(JsonFault::NotInteger);
    };
    let key = key.clone()?;
    map.insert(key, value)?;
    Ok(())
}
