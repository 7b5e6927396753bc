//! `OrderedMap`: a small map whose equality, order and hash depend on the order of its entries. Its iterators and entries
//! are those of `small_map`.

pub use starlark_sets::OrderedMap;
