//! Sets of texts and JSON arrays.
ghost use Rattle.std.specs.Prelude.{◌≡◌, ℕ, List, [], Some, IfOk, IfErr, IsOk, OnOk, MatchOption};
ghost use Rattle.serde_json.specs.Find.{as_str};
ghost use Rattle.serde_json.specs.View.{view};
ghost use Rattle.starlark_hash.specs.Insert.{insert_entry};
ghost use Rattle.std.specs.Str.{bytes_eq};
ghost use Rattle.starlark_map.specs.JsonArrays.{array_of, set_entries, IsSetFault};
ghost use Rattle.starlark_map.specs.JsonTexts.{own_text, text_entries, texts_of};

use super::fault::JsonFault;
use serde_json::Value;
use starlark_sets::SmallSet;
use std::alloc::{AllocError, Global};

/// The array of a set: its elements in their order. It is refused only if memory is refused, and then nothing is made; an
/// empty set needs no memory.
pub fn set_to_value(alloc: Global, set: &SmallSet<String>) -> Result<Value, AllocError>
    ensures array { IfOk result (λ value. view value ≡ array_of (texts_of set.now.entries)) }
    ensures succeeds { set.now.entries ≡ [] → IsOk result }
{
    let mut items = Vec::new(alloc);
    for text in set.iter() {
        items.push(Value::from(text.clone()?))?;
    }
    Ok(Value::from(items))
}

/// The set of an array: its texts in their order, each under its own hash; a text that occurs again keeps its first index.
/// Any other value is `NotArray`. Otherwise the first item that is not a text decides, as `NotText`. Memory for an item is
/// asked only after it, and those before, were found to be texts. So neither an empty array, nor one whose first item is at
/// fault, is refused for memory. No result shows at which item memory was refused. On a fault nothing is made.
pub fn set_from_value(alloc: Global, value: &Value) -> Result<SmallSet<String>, JsonFault>
    ensures elements { IfOk result (λ set. set_entries (view value.now) ≡ Some (text_entries set.entries)) }
    ensures fault { IfErr result (IsSetFault (view value.now)) }
{
    let Some(items) = value.as_array() else {
        return Err(JsonFault::NotArray);
    };
    let mut set = SmallSet::new(alloc);
    for item in items {
        insert_item(alloc, &mut set, item)?;
    }
    Ok(set)
}

// Inserts a copy of the item's text. Memory is asked for only after the text was found.
fn insert_item(alloc: Global, set: &mut SmallSet<String>, item: &Value) -> Result<(), JsonFault>
    ensures ok { OnOk result ((text : List ℕ) × (as_str (view item.now) ≡ Some text) × (text_entries set.new.entries ≡ insert_entry bytes_eq (text_entries set.old.entries) (own_text text) tt)) }
    ensures err { IfErr result (λ fault. MatchOption (as_str (view item.now)) (fault ≡ JsonFault.NotText) (λ _. fault ≡ JsonFault.Memory)) }
{
    let Some(text) = item.as_str() else {
        return Err(JsonFault::NotText);
    };
    set.insert(String::from_str(alloc, text)?)?;
    Ok(())
}
