//! Raw memory: rows of cells, each empty or with an item; bytes; and a pointer that may be null. No other crate of the
//! library uses raw memory.
#![tactic(auto)]

pub mod between;
mod block;
pub mod bytes;
pub mod column;
pub mod front;
mod layout;
pub mod loan;
pub mod pair;
pub mod perhaps;
pub mod row;

pub use block::{Address, Spot};
pub use bytes::Bytes;
pub use column::Column;
pub use loan::Loan;
pub use perhaps::Perhaps;
pub use row::Row;
