//! What is done with an entry of any map.

use play_words::values::raised;
use play_words::{Fault, Key, Out};
use starlark_map::small_map::Entry;

/// Writes which of the two an entry is, and its key.
pub fn show<K: Key>(entry: &Entry<'_, K, i64>, out: &mut Out) -> Result<(), Fault> {
    out.say(match entry {
        Entry::Occupied(_) => "occupied",
        Entry::Vacant(_) => "vacant",
    })?;
    out.put(entry.key())
}

/// Writes a value, and adds to it.
pub fn raise(value: &mut i64, by: i64, out: &mut Out) -> Result<(), Fault> {
    out.put(*value)?;
    *value = raised(*value, by);
    Ok(())
}
