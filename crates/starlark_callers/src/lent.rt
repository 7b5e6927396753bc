//! Callers that write through the references that lists and maps lend, and say what these are afterwards.

pub mod entries;
pub mod looked_up;
pub mod maps;
pub mod occupied;
pub mod ordered;
pub mod pairs;
mod put;
pub mod sets;
pub mod unordered;
