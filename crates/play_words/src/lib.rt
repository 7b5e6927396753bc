//! What a script of calls on the collections is made of: its words, the kinds of its keys, and its answers.
#![tactic(auto)]

pub mod answers;
pub mod crowd;
pub mod fault;
pub mod key;
pub mod loose;
pub mod shown;
pub mod slots;
pub mod values;
pub mod walks;
pub mod words;

pub use answers::Out;
pub use crowd::Crowd;
pub use fault::{Fault, had, needed};
pub use key::Key;
pub use loose::Loose;
pub use shown::{Shown, text_of};
pub use slots::{Slot, Slots};
pub use words::{Call, Words};
