//! The refusal of a new entry.
ghost use Rattle.std.specs.Prelude.{◌≡◌, Some, codes};
ghost use Rattle.std.specs.IoError.{error_kind};
ghost use Rattle.std.specs.declared.io.ErrorKind.TheVariants.{OutOfMemory};

use std::alloc::AllocError;
use std::error::Error;
use std::{fmt, io};

/// There was no memory for a new entry. What was to be inserted is handed back. The entries of the collection are
/// unchanged; its capacity may have grown.
#[derive(Debug, Drop)]
pub struct NoRoom<T>(pub T);

impl<T> fmt::Display for NoRoom<T> {
    ghost output = { λ _. Some (codes "no memory for a new entry") };

    fn fmt<W: fmt::Write>(&self, f: &mut fmt::Formatter<W>) -> fmt::Result {
        f.write_str("no memory for a new entry")
    }
}

impl<T: fmt::Debug + Drop> Error for NoRoom<T> {}

/// Lets `?` pass a refusal on in a function that returns `AllocError`. What was to be inserted is dropped.
impl<T: Drop> From<NoRoom<T>> for AllocError {
    fn from(_: NoRoom<T>) -> Self {
        AllocError
    }
}

/// Lets `?` pass a refusal on in a function that returns `io::Result`, with the kind `OutOfMemory`. What was to be
/// inserted is dropped.
impl<T: Drop> From<NoRoom<T>> for io::Error {
    ghost from_gives = { λ _ e. error_kind e ≡ OutOfMemory };

    fn from(_: NoRoom<T>) -> Self {
        io::Error::from(AllocError)
    }
}
