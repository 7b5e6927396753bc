//! A list of pairs in two columns: all first parts are stored side by side, and so are all second parts.
#![tactic(auto)]

mod loan;
pub mod pairs_mut;
pub mod values_mut;
pub mod vec2;

pub use pairs_mut::PairsMut;
pub use values_mut::ValuesMut;
pub use vec2::Vec2;
