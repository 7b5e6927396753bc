//! Why a command has no answer.

use starlark_map::NoRoom;
use std::alloc::{AllocError, AllocFailed};

/// Why a command has no answer.
#[derive(Clone, Copy, Debug, PartialEq, Eq)]
pub enum Fault {
    /// A request for memory was refused.
    Memory,
    /// The line is no command.
    BadLine,
}

impl From<AllocError> for Fault {
    fn from(_: AllocError) -> Self {
        Fault::Memory
    }
}

impl<T: Drop> From<AllocFailed<T>> for Fault {
    fn from(_: AllocFailed<T>) -> Self {
        Fault::Memory
    }
}

impl<T: Drop> From<NoRoom<T>> for Fault {
    fn from(_: NoRoom<T>) -> Self {
        Fault::Memory
    }
}

/// What a call made that hands its source back where memory is refused.
pub fn had<T, R: Drop>(made: Result<T, R>) -> Result<T, Fault> {
    match made {
        Ok(value) => Ok(value),
        Err(_) => Err(Fault::Memory),
    }
}

/// A word's meaning, which a word of another kind has not.
pub fn needed<T>(meaning: Option<T>) -> Result<T, Fault> {
    match meaning {
        Some(value) => Ok(value),
        None => Err(Fault::BadLine),
    }
}
