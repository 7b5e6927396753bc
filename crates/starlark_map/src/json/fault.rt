//! The faults of reading a JSON value.
ghost use Rattle.std.specs.Prelude.{◌≡◌, Some};
ghost use Rattle.starlark_map.specs.JsonFaults.{fault_text};
ghost use Rattle.starlark_map.specs.declared.json.fault.JsonFault.TheVariants.{Memory as OutOfMemory};

use starlark_hash::NoRoom;
use std::alloc::AllocError;
use std::error::Error;
use std::fmt;

/// Why a value cannot be read as a map or a set.
#[derive(Clone, Copy, Debug, PartialEq, Eq)]
pub enum JsonFault {
    /// A map was expected, and the value is not an object.
    NotObject,
    /// A set was expected, and the value is not an array.
    NotArray,
    /// An item of the array is not a text.
    NotText,
    /// A value of the object is not an integer from -2^63 to 2^63 - 1. A float is not an integer, even if it has no
    /// fraction.
    NotInteger,
    /// A request for memory was refused.
    Memory,
}

impl fmt::Display for JsonFault {
    ghost output = { λ fault. Some (fault_text fault) };

    fn fmt<W: fmt::Write>(&self, f: &mut fmt::Formatter<W>) -> fmt::Result {
        f.write_str(match self {
            JsonFault::NotObject => "the value is no object",
            JsonFault::NotArray => "the value is no array",
            JsonFault::NotText => "an item is no text",
            JsonFault::NotInteger => "a value is no integer of 64 bits",
            JsonFault::Memory => "out of memory",
        })
    }
}

impl Error for JsonFault {}

/// A refusal of memory, for `?`.
impl From<AllocError> for JsonFault {
    ghost from_gives = { λ _ fault. fault ≡ OutOfMemory };

    fn from(_: AllocError) -> Self {
        JsonFault::Memory
    }
}

/// A refusal of a new entry, for `?`. What was to be inserted is dropped.
impl<T: Drop> From<NoRoom<T>> for JsonFault {
    ghost from_gives = { λ _ fault. fault ≡ OutOfMemory };

    fn from(_: NoRoom<T>) -> Self {
        JsonFault::Memory
    }
}
