//! The lines of a script: cut out of the input, parsed, played on a small map, and answered by replies.
#![tactic(auto)]

pub mod answer;
pub mod fault;
pub mod in_turn;
pub mod line;
pub mod output;
pub mod play;
pub mod window;

pub use fault::PlayFault;
pub use in_turn::{PromptReader, SharedWriter};
pub use line::{Line, read_line, texts_are_of_one};
pub use output::{write_line, write_text};
pub use window::{Found, Window};
