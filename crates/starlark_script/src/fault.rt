//! The reasons why a script is not played to its end.
ghost use Rattle.std.specs.Prelude.{◌≡◌, Some};
ghost use Rattle.starlark_script.specs.Fault.{status_of, text_of};

use std::error::Error;
use std::fmt;

/// Why a script was not played to its end.
#[derive(Clone, Copy, Debug, PartialEq, Eq)]
pub enum PlayFault {
    /// The line of this number, counted from 1, is bad.
    BadLine(u64),
    /// A request for memory was refused.
    Memory,
    /// A read, a write or the flush failed, or the input had not ended after 2^64 - 1 reads or lines.
    Io,
}

impl PlayFault {
    /// The exit status of the program: 2 for a bad line, 3 for a refusal of memory, 4 for input and output.
    pub fn status(&self) -> u8
        ensures { result ≡ status_of self.now }
    {
        match self {
            PlayFault::BadLine(_) => 2,
            PlayFault::Memory => 3,
            PlayFault::Io => 4,
        }
    }
}

impl fmt::Display for PlayFault {
    ghost output = { λ fault. Some (text_of fault) };

    fn fmt<W: fmt::Write>(&self, f: &mut fmt::Formatter<W>) -> fmt::Result {
        match self {
            PlayFault::BadLine(line) => write!(f, "line {line}: bad line"),
            PlayFault::Memory => write!(f, "out of memory"),
            PlayFault::Io => write!(f, "input or output failed"),
        }
    }
}

impl Error for PlayFault {}
