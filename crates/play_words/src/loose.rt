//! Numbers with a tag.
ghost use Rattle.std.proofs.Common.{rules};
ghost use Rattle.std.specs.Cmp.Rules.{comparing, hashing};
ghost use Rattle.std.specs.Cmp.{partial_order_from_own_ties};
ghost use Rattle.std.specs.Hash as fed;
ghost use Rattle.std.specs.Ordering.{as_partial_cmp, nat_cmp, on};
ghost use Rattle.std.specs.Prelude.{nat_eq};

use crate::fault::{Fault, needed};
use crate::key::Key;
use crate::shown::Shown;
use std::alloc::{AllocError, Global};
use std::cmp::Ordering;
use std::fmt::{self, Debug};
use std::hash::{Hash, Hasher};

/// A number with a tag that `==`, order and hash leave out, so that it shows which of two equal keys is kept.
#[derive(Clone, Copy)]
pub struct Loose {
    pub id: u32,
    pub tag: u32,
}

impl PartialEq for Loose {
    ghost eq = { on (λ k. k.id) nat_eq };

    ghost laws = { Prim.search (comparing, rules) };

    fn eq(&self, other: &Loose) -> bool {
        self.id == other.id
    }
}

impl Eq for Loose {
    ghost laws = { Prim.search (comparing, rules) };
}

impl Ord for Loose {
    ghost cmp = { on (λ k. k.id) nat_cmp };

    ghost total = { Prim.search (comparing, rules) };

    ghost matches_partial_cmp = { Prim.search (comparing, rules) };

    ghost matches_eq = { Prim.search (comparing, rules) };

    fn cmp(&self, other: &Loose) -> Ordering {
        self.id.cmp(&other.id)
    }
}

impl PartialOrd for Loose {
    ghost partial_cmp = { as_partial_cmp (on (λ k. k.id) nat_cmp) };

    ghost laws = { partial_order_from_own_ties (Prim.search (comparing, rules)) (Prim.search (comparing, rules)) };

    fn partial_cmp(&self, other: &Loose) -> Option<Ordering> {
        Some(self.cmp(other))
    }
}

impl Hash for Loose {
    ghost hash_input = { λ k. fed.u32 k.id };

    ghost respects_eq = { Prim.search (hashing, rules) };

    fn hash<H: Hasher>(&self, state: &mut H) {
        self.id.hash(state);
    }
}

impl Debug for Loose {
    fn fmt<W: fmt::Write>(&self, f: &mut fmt::Formatter<W>) -> fmt::Result {
        let id = self.id;
        let tag = self.tag;
        write!(f, "{id}.{tag}")
    }
}

impl Shown for Loose {
    fn show(&self, text: &mut String) -> Result<(), AllocError> {
        self.id.show(text)?;
        text.push('.')?;
        self.tag.show(text)
    }
}

impl Key for Loose {
    ghost clones_equal = { Prim.search rules };

    fn read(alloc: Global, word: &str) -> Result<Loose, Fault> {
        let (id, tag) = needed(word.split_once('.'))?;
        Ok(Loose {
            id: u32::read(alloc, id)?,
            tag: u32::read(alloc, tag)?,
        })
    }
}
