//! Why a benchmark stops.

use starlark_hash::NoRoom;
use std::alloc::{AllocError, AllocFailed};
use std::error::Error;
use std::{fmt, io};

/// Why a benchmark stops.
#[derive(Clone, Copy, Debug, PartialEq, Eq)]
pub enum Fault {
    /// A request for memory was refused.
    Memory,
    /// The clock, the arguments or the output failed.
    Io,
    /// Two passes of one workload gave different checksums.
    Checksum,
    /// A map was to do what it is not asked for.
    Map,
    /// The words after the program's name are not those of a benchmark.
    Words,
}

impl From<AllocError> for Fault {
    fn from(_: AllocError) -> Self {
        Fault::Memory
    }
}

impl<T: Drop> From<AllocFailed<T>> for Fault {
    fn from(_: AllocFailed<T>) -> Self {
        Fault::Memory
    }
}

impl<T: Drop> From<NoRoom<T>> for Fault {
    fn from(_: NoRoom<T>) -> Self {
        Fault::Memory
    }
}

impl From<io::Error> for Fault {
    fn from(_: io::Error) -> Self {
        Fault::Io
    }
}

impl fmt::Display for Fault {
    fn fmt<W: fmt::Write>(&self, f: &mut fmt::Formatter<W>) -> fmt::Result {
        match self {
            Fault::Memory => write!(f, "out of memory"),
            Fault::Io => write!(f, "the clock, the arguments or the output failed"),
            Fault::Checksum => write!(f, "two passes gave different checksums"),
            Fault::Map => write!(f, "a workload was run on a map that has no such calls"),
            Fault::Words => write!(
                f,
                "script wants SPACE, PUT and GET, three numbers, SPACE above 0"
            ),
        }
    }
}

impl Error for Fault {}
