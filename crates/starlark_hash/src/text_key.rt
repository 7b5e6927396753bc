//! Texts as queries for strings.
ghost use Rattle.std.proofs.Common.{rules};
ghost use Rattle.std.specs.Cmp.Lexicographic.{nat_list_eq_equiv};
ghost use Rattle.std.specs.Cmp.Rules.{comparing, hashing};
ghost use Rattle.std.specs.Hash as fed;
ghost use Rattle.std.specs.Ordering.{on};
ghost use Rattle.std.specs.Str.{bytes_eq};
ghost use Rattle.std.specs.String.{string_bytes};

use crate::equivalent::Equivalent;
use crate::key_query::{KeyQuery, ToOwnedKey};
use crate::same_text::same_text;
use std::alloc::{AllocError, Global};
use std::hash::{Hash, Hasher};

/// A text that stands for the `String` with the same bytes.
#[derive(Clone, Copy, Debug)]
pub struct TextKey<'a>(pub &'a str);

impl<'a> PartialEq for TextKey<'a> {
    ghost eq = { on (λ q. q.0.now) bytes_eq };

    ghost laws = { Prim.search (comparing, rules) };

    #[inline]
    fn eq(&self, other: &TextKey<'a>) -> bool {
        self.0 == other.0
    }
}

impl<'a> Eq for TextKey<'a> {
    ghost laws = { Prim.search (comparing, rules) };
}

impl<'a> Hash for TextKey<'a> {
    ghost hash_input = { λ q. fed.str q.0.now };

    ghost respects_eq = { Prim.search (hashing, rules) };

    #[inline]
    fn hash<H: Hasher>(&self, state: &mut H) {
        self.0.hash(state);
    }
}

impl<'a> Equivalent<String> for TextKey<'a> {
    ghost equivalent = { λ q k. bytes_eq q.0.now (string_bytes k) };

    ghost respects_eq = { λ q x y. nat_list_eq_equiv.congr q.0.now (string_bytes x) (string_bytes y) };

    #[inline]
    fn equivalent(&self, key: &String) -> bool {
        same_text(self.0, key.as_str())
    }
}

impl<'a> KeyQuery<String> for TextKey<'a> {
    ghost feeds_alike = { Prim.search (hashing, rules) };
}

impl<'a> ToOwnedKey<String> for TextKey<'a> {
    fn to_owned_key(&self, alloc: Global) -> Result<String, AllocError> {
        String::from_str(alloc, self.0)
    }
}
