//! Look-ups, by an element and by an index.
ghost use Rattle.std.specs.Prelude.{◌≡◌, ◌-◌, ◌<◌, is_some, slice_get, IfSome};
ghost use Rattle.std.specs.Option.{option_copied};
ghost use Rattle.starlark_dict.specs.DictSet.{contains_by, get_by, index_of_by, set_len};

use super::DictSet;
use starlark_hash::HashQuery;
use std::hash::Hash;

impl<T: Eq + Hash> DictSet<T> {
    /// Whether there is an element that the query stands for.
    #[inline(always)]
    #[tactic(auto, using(crate::proofs::Elements::elements))]
    pub fn contains<Q: HashQuery<T>>(&self, element: Q) -> bool
        ensures { result ≡ contains_by (Q.stands_for element) self.now }
    {
        self.dict.contains_key(element)
    }

    /// The stored element that the query stands for.
    #[inline(always)]
    #[tactic(auto, using(crate::proofs::Elements::elements))]
    pub fn get<Q: HashQuery<T>>(&self, element: Q) -> Option<&T>
        ensures element { option_copied result ≡ get_by (Q.stands_for element) self.now }
        ensures found { is_some result ≡ contains_by (Q.stands_for element) self.now }
    {
        let (_, stored, _) = self.dict.get_full(element)?;
        Some(stored)
    }

    /// The index of the element that the query stands for.
    #[inline(always)]
    #[tactic(auto, using(crate::proofs::Elements::elements))]
    pub fn get_index_of<Q: HashQuery<T>>(&self, element: Q) -> Option<usize>
        ensures index { result ≡ index_of_by (Q.stands_for element) self.now }
        ensures found { is_some result ≡ contains_by (Q.stands_for element) self.now }
        ensures within { IfSome result (λ i. i < set_len self.now) }
    {
        self.dict.get_index_of(element)
    }

    /// The element at an index; `None` past the end.
    #[inline]
    pub fn get_index(&self, index: usize) -> Option<&T>
        ensures element { option_copied result ≡ slice_get self.now.keys index }
    {
        let (element, _) = self.dict.get_index(index)?;
        Some(element)
    }

    /// The first element, if there is one.
    #[inline]
    pub fn first(&self) -> Option<&T>
        ensures element { option_copied result ≡ slice_get self.now.keys 0 }
    {
        let (element, _) = self.dict.first()?;
        Some(element)
    }

    /// The last element, if there is one.
    #[inline]
    pub fn last(&self) -> Option<&T>
        ensures element { option_copied result ≡ slice_get self.now.keys (set_len self.now - 1) }
    {
        let (element, _) = self.dict.last()?;
        Some(element)
    }
}
