//! The commands of a map and their runs, over public contracts alone, and laws of runs and of lists of entries. Each law is
//! the contract of a function.
#![tactic(auto)]

pub mod collection;
pub mod command;
pub mod lists;
pub mod one_list;
pub mod room;
pub mod runs;

pub use command::{Command, Reply};
pub use one_list::{index_never_shows, replies_agree};
pub use room::{held_room_stays, reserved_insertions_succeed};
pub use runs::run;
