//! The arguments of a call by the names of a function's parameters: those that are given, over the defaults.
ghost use Rattle.std.specs.Option.{option_copied, option_or};
ghost use Rattle.std.specs.Prelude.{◌≡◌, Some, false, true, IfErr, OnErr, OnOk};
ghost use Rattle.std.specs.String.{string_bytes, string_eq};
ghost use Rattle.std.specs.Str.{bytes_eq};
ghost use Rattle.std.specs.Hash as fed;
ghost use Rattle.std.specs.declared.alloc.Global.{Global};
ghost use Rattle.std.specs.declared.string.String.{String};
ghost use Rattle.starlark_small.specs.Lookup.{contains_text, get, get_text, keys};

use starlark_small::SmallMap;

/// Values by the names of parameters.
pub type Attributes<V> = SmallMap<String, V>;

/// What a parameter is: the value that is given for it, or else its default.
pub fn attribute<'a, V>(
    given: &'a Attributes<V>,
    defaults: &'a Attributes<V>,
    name: &str,
) -> Option<&'a V>
    ensures { option_copied result ≡ option_or (get_text given.now name.now) (get_text defaults.now name.now) }
{
    match given.get(name) {
        Some(value) => Some(value),
        None => defaults.get(name),
    }
}

/// Gives a value over the default of a parameter. All others keep theirs, and the parameters their order. Where there is
/// no such parameter, the value comes back, and nothing changes.
pub fn give<V: Drop>(attributes: &mut Attributes<V>, name: &str, value: V) -> Result<(), V>
    ensures given { OnOk result (get_text attributes.new name.now ≡ Some value) }
    ensures others { (other : String Global) → bytes_eq name.now (string_bytes other) ≡ false → get string_eq (λ s. fed.str (string_bytes s)) attributes.new other ≡ get string_eq (λ s. fed.str (string_bytes s)) attributes.old other }
    ensures parameters { keys attributes.new ≡ keys attributes.old }
    ensures known { OnOk result (contains_text attributes.old name.now ≡ true) }
    ensures unknown { OnErr result (contains_text attributes.old name.now ≡ false) }
    ensures unchanged { OnErr result (attributes.new ≡ attributes.old) }
    ensures handed_back { IfErr result (λ back. back ≡ value) }
{
    match attributes.get_mut(name) {
        Some(default) => {
            *default = value;
            Ok(())
        }
        None => Err(value),
    }
}
