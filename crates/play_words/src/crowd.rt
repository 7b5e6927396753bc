//! Numbers that share three hashes.
ghost use Rattle.std.proofs.Common.{◌%◌, rules};
ghost use Rattle.std.specs.Cmp.Rules.{hashing};
ghost use Rattle.std.specs.Hash as fed;

use crate::fault::Fault;
use crate::key::Key;
use crate::shown::Shown;
use std::alloc::{AllocError, Global};
use std::fmt::{self, Debug};
use std::hash::{Hash, Hasher};

/// A number that feeds its remainder by 3 alone.
#[derive(Clone, Copy, PartialEq, Eq, PartialOrd, Ord)]
pub struct Crowd(pub u32);

impl Hash for Crowd {
    ghost hash_input = { λ k. fed.u32 (k.0 % 3) };

    ghost respects_eq = { Prim.search (hashing, rules) };

    fn hash<H: Hasher>(&self, state: &mut H) {
        (self.0 % 3).hash(state);
    }
}

impl Debug for Crowd {
    fn fmt<W: fmt::Write>(&self, f: &mut fmt::Formatter<W>) -> fmt::Result {
        let number = self.0;
        write!(f, "{number}")
    }
}

impl Shown for Crowd {
    fn show(&self, text: &mut String) -> Result<(), AllocError> {
        self.0.show(text)
    }
}

impl Key for Crowd {
    ghost clones_equal = { Prim.search rules };

    fn read(alloc: Global, word: &str) -> Result<Crowd, Fault> {
        Ok(Crowd(u32::read(alloc, word)?))
    }
}
