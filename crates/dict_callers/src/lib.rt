//! What callers of dictionaries say of their own calls: a family of calls a file, with no proof of theirs, but for the
//! invariant of the loop in `entries`.
#![tactic(auto)]

pub mod dict;
pub mod entries;
pub mod order;
pub mod set;
pub mod walk;
