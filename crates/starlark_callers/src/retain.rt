//! Callers that write all values by `retain`.
ghost use Rattle.std.specs.Hash as fed;
ghost use Rattle.std.specs.Option.{option_map};
ghost use Rattle.std.specs.Prelude.{◌/◌, ◌≡◌, nat_eq, ℕ};
ghost use Rattle.starlark_hash.specs.Entries.{entry_key, entry_value};
ghost use Rattle.starlark_small.specs.Lookup.{contains, get, keys};
ghost use Rattle.starlark_small.specs.Retain.{with_each_value};

use starlark_small::SmallMap;

/// Halves each value: the keys stay.
pub fn halve(counts: &mut SmallMap<u32, u64>)
    ensures written { counts.new.entries ≡ with_each_value (λ e. entry_value e / 2) counts.old.entries }
    ensures found { (key : ℕ) → get nat_eq fed.u32 counts.new key ≡ option_map (λ n. n / 2) (get nat_eq fed.u32 counts.old key) }
    ensures there { (key : ℕ) → contains nat_eq fed.u32 counts.new key ≡ contains nat_eq fed.u32 counts.old key }
    ensures keys { keys counts.new ≡ keys counts.old }
{
    counts.retain(|_key, count| {
        *count /= 2;
        true
    });
}

/// Whether a number is there.
pub fn has(others: &SmallMap<u32, u64>, key: u32) -> bool
    ensures { result ≡ contains nat_eq fed.u32 others.now key }
{
    others.contains_key(&key)
}

/// Writes at each key whether another map has it.
pub fn recount(marks: &mut SmallMap<u32, bool>, others: &SmallMap<u32, u64>)
    ensures { marks.new.entries ≡ with_each_value (λ e. contains nat_eq fed.u32 others.now (entry_key e)) marks.old.entries }
{
    marks.retain(|key, mark| {
        *mark = has(others, *key);
        true
    });
}
