//! The values of an interpreter. A value may hold lists of values, and dictionaries of them.
ghost use Rattle.std.specs.Option.{option_copied, option_map};
ghost use Rattle.std.specs.Prelude.{◌≡◌, ◌-◌, ◌^◌, ◌++◌, ◌∷◌, [], false, true, is_some, min, None, Some, IfErr, IfOk, OnErr, OnOk};
ghost use Rattle.std.specs.String.{string_bytes, string_eq};
ghost use Rattle.starlark_dict.specs.Dict.{get, get_by_text, insert_entry};
ghost use Rattle.starlark_uses.specs.Counts.{count};
ghost use Rattle.starlark_uses.specs.Pairs.{has_path, pairs_of, value_at, without_key};
ghost use Rattle.starlark_uses.specs.Spelling.{spelled};

use starlark_dict::Dict;
use starlark_hash::NoRoom;
use std::alloc::{AllocError, Global};

/// A value of an interpreter.
#[derive(Debug, PartialEq, Drop)]
pub enum Value {
    None,
    Int(i64),
    Text(String),
    List(Vec<Value>),
    Dict(Dict<String, Value>),
}

impl Value {
    /// How many values this one is made of, itself included, or the largest `u64` where they are more.
    pub fn count(&self) -> u64
        ensures { result ≡ min (count self.now) (2 ^ 64 - 1) }
    {
        let mut total = 1u64;
        match self {
            Value::List(values) => {
                for value in values {
                    total = total.saturating_add(value.count());
                }
            }
            Value::Dict(dict) => {
                for value in dict.values() {
                    total = total.saturating_add(value.count());
                }
            }
            Value::None | Value::Int(_) | Value::Text(_) => {}
        }
        total
    }

    /// A copy, which is spelled as the value is: nothing but its memory differs. Where memory is refused, nothing is
    /// made.
    pub fn copy(&self, alloc: Global) -> Result<Value, AllocError>
        ensures { IfOk result (λ copy. spelled copy ≡ spelled self.now) }
    {
        match self {
            Value::None => Ok(Value::None),
            Value::Int(number) => Ok(Value::Int(*number)),
            Value::Text(text) => Ok(Value::Text(text.clone()?)),
            Value::List(items) => {
                let mut all = Vec::new(alloc);
                for item in items {
                    all.push(item.copy(alloc)?)?;
                }
                Ok(Value::List(all))
            }
            Value::Dict(names) => {
                let mut all = Dict::new(alloc);
                for (name, item) in names {
                    append(&mut all, name.clone()?, item.copy(alloc)?)?;
                }
                Ok(Value::Dict(all))
            }
        }
    }

    /// The value at a key, where this value is a dictionary that has it.
    pub fn get_key(&self, key: &str) -> Option<&Value>
        ensures { option_copied result ≡ value_at self.now key.now }
    {
        match self {
            Value::Dict(dict) => dict.get(key),
            _ => None,
        }
    }

    /// Whether there is a value along a path of keys.
    pub fn has_path(&self, path: &[&str]) -> bool
        ensures { result ≡ has_path self.now path.now }
    {
        let Some((first, rest)) = path.split_first() else {
            return true;
        };
        match self {
            Value::Dict(dict) => match dict.get(*first) {
                Some(next) => next.has_path(rest),
                None => false,
            },
            _ => false,
        }
    }

    /// Sets a key of a dictionary to a value, as `d[key] = value`. A key that is there keeps its place and is never
    /// refused; a new one goes last. `false` says that this value is no dictionary, and nothing changes. Where memory is
    /// refused, key and value come back, and the pairs are as they were.
    pub fn set_key(&mut self, key: String, value: Value) -> Result<bool, NoRoom<(String, Value)>>
        // The pairs, and whether there are any.
        ensures is_dict { IfOk result (λ set. set ≡ is_some (pairs_of self.old)) }
        ensures pairs { OnOk result (pairs_of self.new ≡ option_map (λ es. insert_entry string_eq es key value) (pairs_of self.old)) }
        ensures no_dict { IfOk result (λ set. set ≡ false → self.new ≡ self.old) }

        // What is found now.
        ensures here { IfOk result (λ set. set ≡ true → value_at self.new (string_bytes key) ≡ Some value) }

        // A refusal.
        ensures absent { OnErr result (value_at self.old (string_bytes key) ≡ None) }
        ensures handed_back { IfErr result (λ refused. refused.0 ≡ (key, value)) }
        ensures unchanged { OnErr result (pairs_of self.new ≡ pairs_of self.old) }
    {
        match self {
            Value::Dict(dict) => {
                dict.insert(key, value)?;
                Ok(true)
            }
            _ => Ok(false),
        }
    }

    /// Deletes a key of a dictionary, as `del d[key]`, and answers its value. The other pairs keep their order. `None`
    /// says that this value is no dictionary with that key, and nothing changes.
    pub fn delete_key(&mut self, key: &str) -> Option<Value>
        ensures was { result ≡ value_at self.old key.now }
        ensures pairs { pairs_of self.new ≡ option_map (λ es. without_key es key.now) (pairs_of self.old) }
        ensures gone { value_at self.new key.now ≡ None }
    {
        match self {
            Value::Dict(dict) => take_key(dict, key),
            _ => None,
        }
    }
}

// Puts a new name last.
#[tactic(auto, using(starlark_dict::proofs::Rebuilt::rebuilt))]
fn append(all: &mut Dict<String, Value>, name: String, item: Value) -> Result<(), AllocError>
    requires { get string_eq all.old name ≡ None }
    ensures { OnOk result (all.new.entries ≡ all.old.entries ++ (name, item) ∷ []) }
{
    all.insert(name, item)?;
    Ok(())
}

// Takes a name out.
#[tactic(auto, unfolding(crate::specs::Pairs::without_key))]
fn take_key(dict: &mut Dict<String, Value>, key: &str) -> Option<Value>
    ensures was { result ≡ get_by_text dict.old key.now }
    ensures entries { dict.new.entries ≡ without_key dict.old.entries key.now }
    ensures gone { get_by_text dict.new key.now ≡ None }
{
    dict.shift_remove(key)
}
