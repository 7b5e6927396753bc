//! Equality and hash of a `Vec2`, both by its pairs alone.
ghost use Rattle.std.specs.Prelude.{◌&&◌, ◌++◌};
ghost use Rattle.std.specs.Cmp.{and_per, on_per, and_equiv, on_equiv};
ghost use Rattle.std.specs.Cmp.Lexicographic.{pointwise, lists_per, lists_equiv};
ghost use Rattle.std.specs.Hash as fed;

use super::Vec2;
use std::hash::{Hash, Hasher};

impl<A: PartialEq, B: PartialEq> PartialEq for Vec2<A, B> {
    ghost eq = { λ v w. pointwise (λ p q. A.eq p.0 q.0 && B.eq p.1 q.1) v.pairs w.pairs };

    ghost laws = { on_per (λ v. v.pairs) (lists_per (and_per (on_per (λ p. p.0) A.laws) (on_per (λ p. p.1) B.laws))) };

    fn eq(&self, other: &Self) -> bool {
        self.firsts() == other.firsts() && self.seconds() == other.seconds()
    }
}

impl<A: Eq, B: Eq> Eq for Vec2<A, B> {
    ghost laws = { on_equiv (λ v. v.pairs) (lists_equiv (and_equiv (on_equiv (λ p. p.0) A.Eq.laws) (on_equiv (λ p. p.1) B.Eq.laws))) };
}

impl<A: Hash, B: Hash> Hash for Vec2<A, B> {
    ghost hash_input = { λ v. fed.slice (λ p. A.hash_input p.0 ++ B.hash_input p.1) v.pairs };

    ghost respects_eq = { (fed.on_Alike (λ v. v.pairs) (fed.items_Alike (fed.and-Alike (fed.on_Alike (λ p. p.0) (record { fed = A.respects_eq })) (fed.on_Alike (λ p. p.1) (record { fed = B.respects_eq }))))).fed };

    // Feeds the length, and then the first and the second part of each pair.
    fn hash<H: Hasher>(&self, state: &mut H) {
        state.write_usize(self.len());
        for (first, second) in self {
            first.hash(state);
            second.hash(state);
        }
    }
}
