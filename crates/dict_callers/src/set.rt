//! Callers of sets that are seen as the list of their elements. No clause of theirs names a hash.
ghost use Rattle.std.specs.Fn.{CalledAt};
ghost use Rattle.std.specs.Prelude.{◌&&◌, ◌+◌, ◌-◌, ◌<◌, ◌||◌, ◌∷◌, ◌≡◌, ◌≤◌, [], Bool, IfOk, IfSome, IsSorted, OnErr, OnOk, false, filter, if◌then◌else◌, is_some, map, nat_eq, not, slice_get, true, ℕ};
ghost use Rattle.std.specs.Map.Iter.{deref};
ghost use Rattle.std.specs.Set.{is_member};
ghost use Rattle.std.specs.String.{string_eq};
ghost use Rattle.std.specs.declared.alloc.Global.{Global};
ghost use Rattle.std.specs.declared.string.String.{String};
ghost use Rattle.starlark_dict.specs.DictSet.{contains, contains_text, room, set_eq, set_len, IsUnique};
ghost use Rattle.starlark_dict.specs.Retain.{CallableOnEach};

use starlark_dict::{DictSet, Difference, Union, dict_set};
use starlark_hash::NoRoom;
use std::alloc::{AllocError, Global};
use std::hash::Hash;

/// Whether both sets have the element.
pub fn both_have<T: Eq + Hash>(set: &DictSet<T>, other: &DictSet<T>, element: &T) -> bool
    ensures { result ≡ contains T.eq set.now element.now && contains T.eq other.now element.now }
{
    set.contains(element) && other.contains(element)
}

/// Whether the text is there.
pub fn has_text(names: &DictSet<String>, name: &str) -> bool
    ensures { result ≡ contains_text names.now name.now }
{
    names.contains(name)
}

/// The index of an element, within the set.
pub fn place(set: &DictSet<u32>, element: u32) -> Option<usize>
    ensures there { is_some result ≡ contains nat_eq set.now element }
    ensures within { IfSome result (λ i. i < set_len set.now) }
{
    set.get_index_of(&element)
}

/// Puts an element in.
pub fn add<T: Eq + Hash + Drop>(set: &mut DictSet<T>, element: T) -> Result<(), NoRoom<T>>
    ensures here { OnOk result (contains T.eq set.new element ≡ true) }
    ensures others { OnOk result ((other : T) → T.eq element other ≡ false → contains T.eq set.new other ≡ contains T.eq set.old other) }
    ensures unchanged { OnErr result (set.new.keys ≡ set.old.keys) }
    ensures lacking { OnErr result (contains T.eq set.old element ≡ false) }
    ensures unique { IsUnique T.eq set.new }
{
    set.insert(element)?;
    Ok(())
}

/// Puts an element in, and answers how many there are.
pub fn add_and_count<T: Eq + Hash + Drop>(
    set: &mut DictSet<T>,
    element: T,
) -> Result<usize, NoRoom<T>>
    ensures { IfOk result (λ n. n ≡ set_len set.old + (if contains T.eq set.old element then 0 else 1)) }
{
    set.insert(element)?;
    Ok(set.len())
}

/// Puts a number in where there is room, which is not refused.
pub fn add_fitting(set: &mut DictSet<u32>, element: u32) -> bool
    requires { 0 < room set.old }
    ensures done { result ≡ true }
    ensures here { contains nat_eq set.new element ≡ true }
    ensures others { (other : ℕ) → nat_eq element other ≡ false → contains nat_eq set.new other ≡ contains nat_eq set.old other }
{
    set.insert(element).is_ok()
}

/// Takes an element out, and answers it.
pub fn take_out<T: Eq + Hash + Drop>(set: &mut DictSet<T>, element: &T) -> Option<T>
    ensures gone { contains T.eq set.new element.now ≡ false }
    ensures others { (other : T) → T.eq element.now other ≡ false → contains T.eq set.new other ≡ contains T.eq set.old other }
    ensures was { is_some result ≡ contains T.eq set.old element.now }
    ensures count { set_len set.new + (if is_some result then 1 else 0) ≡ set_len set.old }
{
    set.take(element)
}

/// Takes the last element out, and answers it.
pub fn take_last<T: Eq + Hash + Drop>(set: &mut DictSet<T>) -> Option<T>
    ensures last { result ≡ slice_get set.old.keys (set_len set.old - 1) }
    ensures gone { IfSome result (λ last. contains T.eq set.new last ≡ false) }
    ensures others { IfSome result (λ last. (other : T) → T.eq last other ≡ false → contains T.eq set.new other ≡ contains T.eq set.old other) }
{
    set.pop()
}

/// Keeps the elements that a test passes: no more than there were, and none that is new.
pub fn keep_if<T: Eq + Hash + Drop, F: FnMut(&T) -> bool>(set: &mut DictSet<T>, keep: F)
    requires { CallableOnEach F.FnMut keep set.old.keys }
    ensures fewer { set_len set.new ≤ set_len set.old }
    ensures no_new { (element : T) → contains T.eq set.new element ≡ true → contains T.eq set.old element ≡ true }
    ensures filtered { (test : T → Bool) → ((f : F) (element : T) (keeps : Bool) (g : F) → CalledAt F.FnMut f element keeps g → keeps ≡ test element) → set.new.keys ≡ filter test set.old.keys }
{
    set.retain(keep);
}

/// Keeps the numbers that another set lacks.
pub fn subtract(set: &mut DictSet<u32>, other: &DictSet<u32>)
    ensures { set.new.keys ≡ filter (λ n. not (contains nat_eq other.now n)) set.old.keys }
{
    set.retain(|n| !other.contains(n));
}

/// Sorts the elements, which ascend then; the same ones are there.
pub fn sorted<T: Ord + Hash>(set: &mut DictSet<T>) -> Result<(), AllocError>
    ensures ascend { OnOk result (IsSorted T.cmp set.new.keys) }
    ensures same { (element : T) → contains T.eq set.new element ≡ contains T.eq set.old element }
    ensures count { set_len set.new ≡ set_len set.old }
{
    set.sort()
}

/// Whether both sets have the same elements, in whatever order.
pub fn same<T: Eq + Hash>(set: &DictSet<T>, other: &DictSet<T>) -> bool
    ensures { result ≡ set_eq T.eq set.now other.now }
{
    *set == *other
}

/// What one set has and the other lacks.
pub fn lacking<'a, T: Eq + Hash>(set: &'a DictSet<T>, other: &'a DictSet<T>) -> Difference<'a, T>
    ensures { (element : T) → is_member T.eq result element ≡ (contains T.eq set.now element && not (contains T.eq other.now element)) }
{
    set.difference(other)
}

/// What either set has.
pub fn either<'a, T: Eq + Hash>(set: &'a DictSet<T>, other: &'a DictSet<T>) -> Union<'a, T>
    ensures { (element : T) → is_member T.eq result element ≡ (contains T.eq set.now element || contains T.eq other.now element) }
{
    set.union(other)
}

/// A set of known numbers, one put twice and another taken out.
pub fn numbers(alloc: Global) -> Result<DictSet<u32>, NoRoom<u32>>
    ensures one { IfOk result (λ s. contains nat_eq s 1 ≡ true) }
    ensures two { IfOk result (λ s. contains nat_eq s 2 ≡ false) }
    ensures others { IfOk result (λ s. (n : ℕ) → nat_eq 1 n ≡ false → nat_eq 2 n ≡ false → nat_eq 3 n ≡ false → contains nat_eq s n ≡ false) }
{
    let mut set = DictSet::new(alloc);
    set.insert(3u32)?;
    set.insert(1)?;
    set.insert(2)?;
    set.shift_remove(&2);
    set.insert(3)?;
    Ok(set)
}

/// A set that is written out, one element twice.
pub fn written_out(alloc: Global) -> Result<DictSet<u32>, AllocError>
    ensures { IfOk result (λ s. s.keys ≡ 1 ∷ 4 ∷ 2 ∷ []) }
{
    dict_set![alloc; 1u32, 4, 2, 4]
}

/// The numbers of a vector, as a set.
pub fn of_numbers(alloc: Global, numbers: Vec<u32>) -> Result<DictSet<u32>, AllocError>
    ensures each { IfOk result (λ s. (n : ℕ) → contains nat_eq s n ≡ is_member nat_eq numbers.items n) }
    ensures unique { IfOk result (IsUnique nat_eq) }
{
    DictSet::from_iter(alloc, numbers)
}

/// A copy of numbers, which has the same ones.
pub fn copied(set: &DictSet<u32>) -> Result<DictSet<u32>, AllocError>
    ensures { IfOk result (λ copy. copy.keys ≡ set.now.keys) }
{
    set.clone()
}

/// The numbers that one set has and the other lacks, as a set.
pub fn lacking_numbers(
    alloc: Global,
    set: &DictSet<u32>,
    other: &DictSet<u32>,
) -> Result<DictSet<u32>, AllocError>
    ensures { IfOk result (λ s. (n : ℕ) → contains nat_eq s n ≡ (contains nat_eq set.now n && not (contains nat_eq other.now n))) }
{
    set.difference(other).copied().collect(alloc)
}

/// The numbers that either set has, as a set.
pub fn either_numbers(
    alloc: Global,
    set: &DictSet<u32>,
    other: &DictSet<u32>,
) -> Result<DictSet<u32>, AllocError>
    ensures { IfOk result (λ s. (n : ℕ) → contains nat_eq s n ≡ (contains nat_eq set.now n || contains nat_eq other.now n)) }
{
    set.union(other).copied().collect(alloc)
}

/// The names that one set has and the other lacks, by reference.
pub fn lacking_names<'a>(
    alloc: Global,
    set: &'a DictSet<String>,
    other: &'a DictSet<String>,
) -> Result<Vec<&'a String>, AllocError>
    ensures { IfOk result (λ all. (name : String Global) → is_member string_eq (map deref all.items) name ≡ (contains string_eq set.now name && not (contains string_eq other.now name))) }
{
    set.difference(other).collect(alloc)
}
