//! What callers of maps and sets say of their own calls: a family of calls a file, with no proof of theirs, but for those
//! of `lent`.
#![tactic(auto)]

pub mod collect;
pub mod compare;
pub mod entries;
pub mod get;
pub mod held;
pub mod insert;
pub mod lent;
pub mod nested;
pub mod own_keys;
pub mod remove;
pub mod retain;
pub mod room;
pub mod sets;
pub mod sort;
pub mod sorted;
pub mod unordered;
pub mod walk;
