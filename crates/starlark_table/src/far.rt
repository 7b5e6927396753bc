//! The overflow filter: one bit for each tag modulo 64. A bit says that a member with such a tag may be outside its home's
//! group.
ghost use Rattle.std.specs.Prelude.{◌≡◌, ℕ, false};
ghost use Rattle.starlark_table.specs.Layout.{MayBeFar};

// Whether a member with this tag may be outside its home's group.
#[inline]
pub(crate) fn may_be_far(far: u64, tag: u8) -> bool
    ensures no { result ≡ false → MayBeFar far tag → ⊥ }
{
    far >> (tag % 64) & 1 == 1
}

// The filter with the bit of this tag set.
#[inline]
pub(crate) fn with_far(far: u64, tag: u8) -> u64
    ensures its { MayBeFar result tag }
    ensures others { (other : ℕ) → MayBeFar far other → MayBeFar result other }
{
    far | 1 << (tag % 64)
}
