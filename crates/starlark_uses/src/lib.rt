//! Parts of programs that stand on the maps and sets, each with what its user relies on.
#![tactic(auto)]

pub mod attributes;
pub mod build;
pub mod cache;
pub mod free;
pub mod interner;
pub mod scopes;
pub mod scores;
pub mod value;
pub mod visits;
pub mod words;
