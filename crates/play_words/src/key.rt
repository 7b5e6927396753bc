//! The kinds of keys: texts and numbers; those of `crowd.rt` and `loose.rt` beside them.
ghost use Rattle.std.proofs.Common.{rules};
ghost use Rattle.starlark_map.specs.EntriesClone.{IsEqualClone};

use crate::answers::Out;
use crate::fault::Fault;
use crate::shown::Shown;
use serde_json::{Category, Value};
use starlark_map::JsonFault;
use starlark_map::json::{map_from_value, map_to_value, set_from_value, set_to_value};
use starlark_map::small_map::SmallMap;
use starlark_map::small_set::SmallSet;
use starlark_map::unordered_map::UnorderedMap;
use std::alloc::Global;
use std::fmt::Debug;
use std::hash::Hash;

/// A kind of keys. Calls whose queries or values are texts alone go by another query than a key where there is one.
pub trait Key: Ord + Hash + Clone + Debug + Drop + Shown {
    /// The key that a word is.
    fn read(alloc: Global, word: &str) -> Result<Self, Fault>;

    /// `get_index_of` of a set, by a query that is no key where there is one.
    fn place_in(&self, set: &SmallSet<Self>) -> Option<usize> {
        set.get_index_of(self)
    }

    /// `get` of an unordered map, by a query that is no key where there is one.
    fn value_in(&self, map: &UnorderedMap<Self, i64>) -> Option<i64> {
        map.get(self).copied()
    }

    /// `remove` of an unordered map, by a query that is no key where there is one.
    fn remove_from(&self, map: &mut UnorderedMap<Self, i64>) -> Option<i64> {
        map.remove(self)
    }

    /// `get_or_insert_owned` of a set, where there is a query; otherwise `get_or_insert` of a clone.
    fn own_in<'a>(&self, set: &'a mut SmallSet<Self>) -> Result<&'a Self, Fault> {
        Ok(set.get_or_insert(self.clone()?)?)
    }

    /// Writes the map as a JSON value, where keys are texts.
    fn write_map(_map: &SmallMap<Self, i64>, _alloc: Global, out: &mut Out) -> Result<(), Fault> {
        out.say("-")
    }

    /// Writes the set as a JSON value, where keys are texts.
    fn write_set(_set: &SmallSet<Self>, _alloc: Global, out: &mut Out) -> Result<(), Fault> {
        out.say("-")
    }

    /// Reads the map from a JSON value, where keys are texts.
    fn read_map(
        _map: &mut SmallMap<Self, i64>,
        _text: &str,
        _alloc: Global,
        out: &mut Out,
    ) -> Result<(), Fault> {
        out.say("-")
    }

    /// Reads the set from a JSON value, where keys are texts.
    fn read_set(
        _set: &mut SmallSet<Self>,
        _text: &str,
        _alloc: Global,
        out: &mut Out,
    ) -> Result<(), Fault> {
        out.say("-")
    }

    ghost clones_equal: { IsEqualClone Self.eq Self.is_clone };
}

impl Key for u32 {
    ghost clones_equal = { Prim.search rules };

    fn read(_alloc: Global, word: &str) -> Result<u32, Fault> {
        match word.parse::<u32>() {
            Ok(number) => Ok(number),
            Err(_) => Err(Fault::BadLine),
        }
    }

    fn own_in<'a>(&self, set: &'a mut SmallSet<u32>) -> Result<&'a u32, Fault> {
        Ok(set.get_or_insert_owned(self)?)
    }
}

impl Key for String {
    ghost clones_equal = { Prim.search rules };

    fn read(alloc: Global, word: &str) -> Result<String, Fault> {
        Ok(String::from_str(alloc, if word == "_" { "" } else { word })?)
    }

    fn place_in(&self, set: &SmallSet<String>) -> Option<usize> {
        set.get_index_of(self.as_str())
    }

    fn value_in(&self, map: &UnorderedMap<String, i64>) -> Option<i64> {
        map.get(self.as_str()).copied()
    }

    fn remove_from(&self, map: &mut UnorderedMap<String, i64>) -> Option<i64> {
        map.remove(self.as_str())
    }

    fn own_in<'a>(&self, set: &'a mut SmallSet<String>) -> Result<&'a String, Fault> {
        Ok(set.get_or_insert_owned(self.as_str())?)
    }

    fn write_map(map: &SmallMap<String, i64>, alloc: Global, out: &mut Out) -> Result<(), Fault> {
        out.put(map_to_value(alloc, map)?.to_string(alloc)?)
    }

    fn write_set(set: &SmallSet<String>, alloc: Global, out: &mut Out) -> Result<(), Fault> {
        out.put(set_to_value(alloc, set)?.to_string(alloc)?)
    }

    fn read_map(
        map: &mut SmallMap<String, i64>,
        text: &str,
        alloc: Global,
        out: &mut Out,
    ) -> Result<(), Fault> {
        let Some(value) = value_of(text, alloc)? else {
            return out.say("bad json");
        };
        match map_from_value(alloc, &value) {
            Ok(read) => {
                *map = read;
                out.say("ok")?;
                out.put(map.len())
            }
            Err(JsonFault::Memory) => Err(Fault::Memory),
            Err(fault) => out.debug(&fault),
        }
    }

    fn read_set(
        set: &mut SmallSet<String>,
        text: &str,
        alloc: Global,
        out: &mut Out,
    ) -> Result<(), Fault> {
        let Some(value) = value_of(text, alloc)? else {
            return out.say("bad json");
        };
        match set_from_value(alloc, &value) {
            Ok(read) => {
                *set = read;
                out.say("ok")?;
                out.put(set.len())
            }
            Err(JsonFault::Memory) => Err(Fault::Memory),
            Err(fault) => out.debug(&fault),
        }
    }
}

// The JSON value that a text is, if it is one.
fn value_of(text: &str, alloc: Global) -> Result<Option<Value>, Fault> {
    match Value::from_str(alloc, text) {
        Ok(value) => Ok(Some(value)),
        Err(fault) if fault.classify() == Category::Memory => Err(Fault::Memory),
        Err(_) => Ok(None),
    }
}
