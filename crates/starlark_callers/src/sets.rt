//! Callers that put elements into sets, and take them out.
ghost use Rattle.std.specs.Fn.{CalledAt};
ghost use Rattle.std.specs.Hash as fed;
ghost use Rattle.std.specs.Option.{option_map};
ghost use Rattle.std.specs.Prelude.{◌+◌, ◌-◌, ◌<◌, ◌≡◌, ◌≤◌, Bool, IfOk, IfSome, OnErr, OnOk, Some, false, filter, if◌then◌else◌, is_some, length, nat_eq, not, slice_get, true, ℕ};
ghost use Rattle.std.specs.Str.{bytes_eq};
ghost use Rattle.std.specs.String.{string_bytes, string_eq};
ghost use Rattle.std.specs.declared.alloc.Global.{Global};
ghost use Rattle.std.specs.declared.string.String.{String};
ghost use Rattle.starlark_hash.specs.Entries.{entry_key, position_of};
ghost use Rattle.starlark_hash.specs.Hasher.{own_hash};
ghost use Rattle.starlark_hash.specs.Retain.{TakesInTurn};
ghost use Rattle.starlark_sets.specs.Retain.{CalledAtElement, TakesElement};
ghost use Rattle.starlark_small.specs.Lookup.{AreOwn, contains, contains_text};

use starlark_hash::NoRoom;
use starlark_sets::{OrderedSet, SmallSet};
use std::alloc::{AllocError, Global};
use std::hash::Hash;

/// Puts an element in.
pub fn add<T: Eq + Hash + Drop>(set: &mut SmallSet<T>, n: T) -> Result<(), NoRoom<T>>
    ensures here { OnOk result (contains T.eq T.hash_input set.new n ≡ true) }
    ensures others { OnOk result ((other : T) → T.eq n other ≡ false → contains T.eq T.hash_input set.new other ≡ contains T.eq T.hash_input set.old other) }
    ensures unchanged { OnErr result ((other : T) → contains T.eq T.hash_input set.new other ≡ contains T.eq T.hash_input set.old other) }
{
    set.insert(n)?;
    Ok(())
}

/// Puts an element in, and answers whether it was lacking; elements under their own hashes stay so.
pub fn add_own<T: Eq + Hash + Drop>(set: &mut SmallSet<T>, n: T) -> Result<bool, NoRoom<T>>
    ensures own { AreOwn T.hash_input set.old → AreOwn T.hash_input set.new }
    ensures here { OnOk result (contains T.eq T.hash_input set.new n ≡ true) }
    ensures is_new { IfOk result (λ is_new. is_new ≡ not (contains T.eq T.hash_input set.old n)) }
{
    set.insert(n)
}

/// Puts in an element that is lacking, with no look-up before.
pub fn add_unseen<T: Eq + Hash + Drop>(set: &mut SmallSet<T>, n: T) -> Result<(), NoRoom<T>>
    requires { contains T.eq T.hash_input set.old n ≡ false }
    ensures count { OnOk result (length set.new.entries ≡ length set.old.entries + 1) }
    ensures here { OnOk result (contains T.eq T.hash_input set.new n ≡ true) }
    ensures others { OnOk result ((other : T) → T.eq n other ≡ false → contains T.eq T.hash_input set.new other ≡ contains T.eq T.hash_input set.old other) }
    ensures own { AreOwn T.hash_input set.old → AreOwn T.hash_input set.new }
    ensures unchanged { OnErr result (set.new.entries ≡ set.old.entries) }
{
    set.insert_unique_unchecked(n)
}

/// Puts the string of a text in, where it is lacking.
pub fn keep_text(set: &mut SmallSet<String>, text: &str) -> Result<(), AllocError>
    ensures here { OnOk result (contains_text set.new text.now ≡ true) }
    ensures count { OnOk result (length set.new.entries ≡ length set.old.entries + (if contains_text set.old text.now then 0 else 1)) }
    ensures own { AreOwn (λ s. fed.str (string_bytes s)) set.old → AreOwn (λ s. fed.str (string_bytes s)) set.new }
    ensures absent { OnErr result (contains_text set.old text.now ≡ false) }
{
    set.get_or_insert_owned(text)?;
    Ok(())
}

/// The number of a text, which is its index: the one that it has, or else the next one, which it has from now on.
pub fn number_of_text(set: &mut SmallSet<String>, text: &str) -> Result<usize, AllocError>
    ensures found { IfOk result (λ number. position_of (own_hash fed.str text.now) (λ s. bytes_eq text.now (string_bytes s)) set.new.entries ≡ Some number) }
    ensures text { IfOk result (λ number. IfSome (slice_get set.new.entries number) (λ e. bytes_eq text.now (string_bytes (entry_key e)) ≡ true)) }
    ensures next { IfOk result (λ number. contains_text set.old text.now ≡ false → number ≡ length set.old.entries) }
    ensures known { contains_text set.old text.now ≡ true → OnOk result (set.new ≡ set.old) }
    ensures here { OnOk result (contains_text set.new text.now ≡ true) }
    ensures others { OnOk result ((other : String Global) → bytes_eq text.now (string_bytes other) ≡ false → contains string_eq (λ s. fed.str (string_bytes s)) set.new other ≡ contains string_eq (λ s. fed.str (string_bytes s)) set.old other) }
    ensures unchanged { OnErr result (set.new.entries ≡ set.old.entries) }
{
    set.index_or_insert_owned(text)
}

/// The number of a text, asked for twice: it is the same.
pub fn number_twice(set: &mut SmallSet<String>, text: &str) -> Result<(usize, usize), AllocError>
    ensures { IfOk result (λ numbers. numbers.0 ≡ numbers.1) }
{
    let number = set.index_or_insert_owned(text)?;
    let again = set.index_or_insert_owned(text)?;
    Ok((number, again))
}

/// Puts a number in where it is lacking, which is not refused where there is room.
pub fn add_fitting(set: &mut SmallSet<u32>, n: u32) -> bool
    requires { 0 < set.old.room }
    ensures done { result ≡ true }
    ensures here { contains nat_eq fed.u32 set.new n ≡ true }
    ensures others { (other : ℕ) → nat_eq n other ≡ false → contains nat_eq fed.u32 set.new other ≡ contains nat_eq fed.u32 set.old other }
{
    set.get_or_insert_owned(&n).is_ok()
}

/// Takes an element out, and answers it.
pub fn take_out<T: Eq + Hash + Drop>(set: &mut SmallSet<T>, n: T) -> Option<T>
    ensures here { contains T.eq T.hash_input set.new n ≡ false }
    ensures others { (other : T) → T.eq n other ≡ false → contains T.eq T.hash_input set.new other ≡ contains T.eq T.hash_input set.old other }
    ensures was { is_some result ≡ contains T.eq T.hash_input set.old n }
    ensures taken { IfSome result (λ taken. T.eq n taken ≡ true) }
{
    set.take(&n)
}

/// Takes the last element out, and answers it.
pub fn take_last<T: Eq + Hash + Drop>(set: &mut SmallSet<T>) -> Option<T>
    ensures was { result ≡ option_map entry_key (slice_get set.old.entries (length set.old.entries - 1)) }
    ensures there { AreOwn T.hash_input set.old → IfSome result (λ n. contains T.eq T.hash_input set.old n ≡ true) }
    ensures gone { AreOwn T.hash_input set.old → IfSome result (λ n. contains T.eq T.hash_input set.new n ≡ false) }
    ensures own { AreOwn T.hash_input set.old → AreOwn T.hash_input set.new }
    ensures others { IfSome result (λ n. (other : T) → T.eq n other ≡ false → contains T.eq T.hash_input set.new other ≡ contains T.eq T.hash_input set.old other) }
    ensures count { length set.old.entries ≡ length set.new.entries + (if is_some result then 1 else 0) }
{
    set.pop()
}

/// Keeps the elements that a test passes: no more than there were, and none that is new. Those under their own hashes stay so.
pub fn keep_if<T: Eq + Hash + Drop, F: FnMut(&T) -> bool>(set: &mut SmallSet<T>, keep: F)
    requires { TakesInTurn (CalledAtElement F.FnMut) (TakesElement F.FnMut) keep set.old.entries }
    ensures fewer { length set.new.entries ≤ length set.old.entries }
    ensures no_new { (element : T) → contains T.eq T.hash_input set.new element ≡ true → contains T.eq T.hash_input set.old element ≡ true }
    ensures filtered { (test : T → Bool) → ((f : F) (element : T) (keeps : Bool) (left : F) → CalledAt F.FnMut f element keeps left → keeps ≡ test element) → set.new.entries ≡ filter (λ e. test (entry_key e)) set.old.entries }
    ensures own { AreOwn T.hash_input set.old → AreOwn T.hash_input set.new }
{
    set.retain(keep);
}

/// An empty set, which has nothing.
pub fn fresh<T: Eq + Hash>(alloc: Global) -> SmallSet<T>
    ensures none { (element : T) → contains T.eq T.hash_input result element ≡ false }
    ensures own { AreOwn T.hash_input result }
{
    SmallSet::new(alloc)
}

/// Puts an element into an ordered set, and answers whether it was lacking.
pub fn add_in_order<T: Eq + Hash + Drop>(set: &mut OrderedSet<T>, n: T) -> Result<bool, NoRoom<T>>
    ensures was { IfOk result (λ is_new. is_new ≡ not (contains T.eq T.hash_input set.old n)) }
    ensures here { OnOk result (contains T.eq T.hash_input set.new n ≡ true) }
    ensures others { OnOk result ((other : T) → T.eq n other ≡ false → contains T.eq T.hash_input set.new other ≡ contains T.eq T.hash_input set.old other) }
{
    set.insert(n)
}

/// Takes an element out of an ordered set, and answers it.
pub fn take_out_in_order<T: Eq + Hash + Drop>(set: &mut OrderedSet<T>, n: &T) -> Option<T>
    ensures there { is_some result ≡ contains T.eq T.hash_input set.old n.now }
    ensures equal { IfSome result (λ m. T.eq n.now m ≡ true) }
    ensures here { contains T.eq T.hash_input set.new n.now ≡ false }
    ensures count { length set.new.entries + (if is_some result then 1 else 0) ≡ length set.old.entries }
{
    set.take(n)
}
