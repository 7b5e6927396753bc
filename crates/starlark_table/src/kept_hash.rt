//! The stored form of a hash: all 64 bits, or fewer that determine them.
ghost use Rattle.std.specs.Prelude.{◌≡◌, ℕ, ◌==◌};
ghost use Rattle.starlark_hash.specs.HashValue.{hash_number, promoted};

use starlark_hash::StarlarkHashValue;
use std::marker::Model;

/// The form in which a table stores a hash. It determines a number of 64 bits, by which the table finds the slot.
pub trait KeptHash: Copy {
    // the number that the stored form determines
    ghost number: { Self → ℕ };

    /// The number that the stored form determines.
    fn number(self) -> u64
        ensures { result ≡ number self };

    /// Whether both determine one number.
    fn is_same(self, other: Self) -> bool
        ensures { result ≡ (number self == number other) };
}

/// A number is its own stored form.
impl KeptHash for u64 {
    ghost number = { λ h. h };

    #[inline]
    fn number(self) -> u64 {
        self
    }

    #[inline]
    fn is_same(self, other: u64) -> bool {
        self == other
    }
}

/// A hash value, of 32 bits, determines its promoted hash.
impl KeptHash for StarlarkHashValue {
    ghost number = { λ h. promoted (hash_number h) };

    #[inline]
    fn number(self) -> u64 {
        self.promote()
    }

    #[inline]
    fn is_same(self, other: StarlarkHashValue) -> bool {
        self.get() == other.get()
    }
}

/// The stored hash of a slot, seen as the number that it determines.
#[derive(Drop)]
pub struct Kept<H: KeptHash>(H);

impl<H: KeptHash> Model for Kept<H> {
    ghost use Rattle.std.specs.Prelude.{ℕ};

    ghost Value = { ℕ };

    ghost view = { λ kept. H.number kept.0 };
}

impl<H: KeptHash> Kept<H> {
    #[inline]
    pub(crate) fn of(hash: H) -> Self
        ensures { result ≡ H.number hash }
    {
        Kept(hash)
    }

    #[inline]
    pub(crate) fn number(&self) -> u64
        ensures { result ≡ self.now }
    {
        self.0.number()
    }

    #[inline]
    pub(crate) fn is(&self, other: &Self) -> bool
        ensures { result ≡ (self.now == other.now) }
    {
        self.0.is_same(other.0)
    }

    #[inline]
    pub(crate) fn into_inner(self) -> H
        ensures { H.number result ≡ self }
    {
        self.0
    }

    #[inline]
    pub(crate) fn copied(&self) -> Self
        ensures { result ≡ self.now }
    {
        Kept(self.0)
    }
}
