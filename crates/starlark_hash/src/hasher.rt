//! The hasher: 64 bits of state, fed one word at a time.
ghost use Rattle.std.specs.Prelude.{◌≡◌, ℕ, List, [], ◌+◌, ◌*◌, ◌≤◌, ◌<◌, ◌/◌, ◌%◌, ◌^◌, length, take, drop, fold};
ghost use Rattle.std.specs.Hash as fed;
ghost use Rattle.starlark_hash.specs.Hasher as starlark;

use crate::hash_value::StarlarkHashValue;
use std::hash::{BuildHasher, Hasher};

/// A fast hasher that does not withstand keys chosen by an attacker.
///
/// The state begins at 0. A word w changes the state s to (s rotated left by 5 bits, xor w) times 0x517cc1b727220a95,
/// modulo 2^64. A number of up to 64 bits is one word. A number of 128 bits is two words, the lower first. `write` cuts
/// bytes into words, and reads each as a little-endian number on every machine. Each 8 bytes are a word. Of the bytes
/// that are left, which are 7 at most, the first 4 are a word if there are as many, then 2, then 1. `finish` returns the
/// state, which another build of this crate need not reproduce.
#[derive(Drop)]
pub struct StarlarkHasher {
    state: u64,
}

impl StarlarkHasher {
    /// A hasher to which nothing was written.
    #[inline]
    pub fn new() -> StarlarkHasher
        ensures { result ≡ starlark.initial }
    {
        StarlarkHasher { state: 0 }
    }

    /// The low 32 bits of the state.
    #[inline]
    pub fn finish_small(&self) -> StarlarkHashValue
        ensures { result ≡ starlark.finish_small self.now }
    {
        StarlarkHashValue::new_unchecked((self.state & 0xffff_ffff) as u32)
    }

    #[inline]
    fn add_word(&mut self, word: u64)
        ensures { self.new ≡ starlark.with_word self.old word }
    {
        self.state = after_word(self.state, word);
    }

    // Adds `word` if at least `size` bytes are left; otherwise changes nothing.
    #[inline]
    fn add_if_left(&mut self, word: u64, size: usize, left: usize)
        ensures whole { size ≤ left → self.new ≡ starlark.with_word self.old word }
        ensures short { left < size → self.new ≡ self.old }
    {
        self.state = after_word_if_left(self.state, word, size, left);
    }

    // Adds the words of 8 bytes in a loop. The end of the loop is mispredicted if lengths vary.
    #[tactic(auto, using(crate::proofs::HasherLemmas::groups_more, crate::proofs::HasherLemmas::groups_done))]
    #[inline]
    fn add_each_8(&mut self, bytes: &[u8])
        ensures { fold starlark.with_word self.new (starlark.groups 0 (drop (8 * (length bytes.now / 8)) bytes.now)) ≡ fold starlark.with_word self.old (starlark.groups (length bytes.now / 8) bytes.now) }
    {
        let whole = bytes.len() / 8;
        for i in 0..whole {
            self.add_word(read_8(bytes, 8 * i));
        }
    }

    // Adds the words of 8 bytes of 4 to 23 bytes, which are two at most, without a loop.
    #[inline]
    fn add_two_8(&mut self, bytes: &[u8])
        requires some { 4 ≤ length bytes.now }
        requires few { length bytes.now < 24 }
        ensures { fold starlark.with_word self.new (starlark.groups 0 (drop (8 * (length bytes.now / 8)) bytes.now)) ≡ fold starlark.with_word self.old (starlark.groups (length bytes.now / 8) bytes.now) }
    {
        let both = bytes.len() / 16;
        self.add_8(bytes, 0, 0, at_most(4, bytes.len() - 4));
        self.add_8(bytes, 8, 8 * both, 12 * both);
    }

    // Adds the 8 bytes from `at` on, if there are that many. Their halves are read at `low` and `high`. If there are
    // fewer bytes, these are any indices in bounds, so that nothing is read past the end.
    #[tactic(auto, using(crate::proofs::HasherLemmas::halves_from))]
    #[inline]
    fn add_8(&mut self, bytes: &[u8], at: usize, low: usize, high: usize)
        requires near { at ≤ 8 }
        requires low_within { low + 4 ≤ length bytes.now }
        requires high_within { high + 4 ≤ length bytes.now }
        requires low_half { at + 8 ≤ length bytes.now → low ≡ at }
        requires high_half { at + 8 ≤ length bytes.now → high ≡ at + 4 }
        ensures whole { at + 8 ≤ length bytes.now → self.new ≡ starlark.with_word self.old (starlark.number (take 8 (drop at bytes.now))) }
        ensures short { length bytes.now < at + 8 → self.new ≡ self.old }
    {
        let low = read_4(bytes, low);
        let high = read_4(bytes, high);
        self.add_if_left(
            low as u64 + high as u64 * 0x1_0000_0000,
            at + 8,
            bytes.len(),
        );
    }

    // Adds a word of 4 bytes, if that many are left after the words of 8. Otherwise earlier bytes are read, and not
    // used.
    #[tactic(auto, using(crate::proofs::HasherLemmas::group_steps))]
    #[inline]
    fn add_4(&mut self, bytes: &[u8])
        ensures { (rest : List ℕ → List ℕ) → fold starlark.with_word self.new (rest (drop (4 * (length bytes.now / 4)) bytes.now)) ≡ fold starlark.with_word self.old (starlark.group 4 rest (drop (8 * (length bytes.now / 8)) bytes.now)) }
    {
        if bytes.len() < 4 {
            return;
        }
        let word = read_4(bytes, 8 * ((bytes.len() - 4) / 8));
        self.add_if_left(word as u64, 4, bytes.len() % 8);
    }

    // Adds a word of 2 bytes, if that many are left after the words of 8 and 4. Otherwise earlier bytes are read, and
    // not used.
    #[tactic(auto, using(crate::proofs::HasherLemmas::group_steps))]
    #[inline]
    fn add_2(&mut self, bytes: &[u8])
        ensures { (rest : List ℕ → List ℕ) → fold starlark.with_word self.new (rest (drop (2 * (length bytes.now / 2)) bytes.now)) ≡ fold starlark.with_word self.old (starlark.group 2 rest (drop (4 * (length bytes.now / 4)) bytes.now)) }
    {
        if bytes.len() < 2 {
            return;
        }
        let word = read_2(bytes, 4 * ((bytes.len() - 2) / 4));
        self.add_if_left(word, 2, bytes.len() % 4);
    }

    // Adds the last byte, if one is left after the words of 8, 4 and 2.
    #[inline]
    fn add_1(&mut self, bytes: &[u8])
        ensures { self.new ≡ fold starlark.with_word self.old (starlark.group 1 (λ _. []) (drop (2 * (length bytes.now / 2)) bytes.now)) }
    {
        if bytes.len() < 1 {
            return;
        }
        let word = read_1(bytes, bytes.len() - 1);
        self.add_if_left(word, 1, bytes.len() % 2);
    }

    // Adds 4 to 23 bytes. No jump depends on their number, since it would be mispredicted if lengths vary.
    #[inline]
    fn add_short(&mut self, bytes: &[u8])
        requires some { 4 ≤ length bytes.now }
        requires few { length bytes.now < 24 }
        ensures { self.new ≡ starlark.write self.old bytes.now }
    {
        self.add_two_8(bytes);
        self.add_4(bytes);
        self.add_2(bytes);
        self.add_1(bytes);
    }
}

// The hasher after `bytes` were written. The function is not inlined, so that code that feeds a text is small enough to be
// inlined itself. The hasher is passed by value, so that its state stays in a register.
#[inline(never)]
fn after_bytes(hasher: StarlarkHasher, bytes: &[u8]) -> StarlarkHasher
    ensures { result ≡ starlark.write hasher bytes.now }
{
    let mut hasher = hasher;
    if 4 <= bytes.len() && bytes.len() < 24 {
        hasher.add_short(bytes);
        return hasher;
    }
    hasher.add_each_8(bytes);
    hasher.add_4(bytes);
    hasher.add_2(bytes);
    hasher.add_1(bytes);
    hasher
}

#[inline]
#[tactic(auto, unfolding(crate::specs::Hasher::add_word))]
fn after_word(state: u64, word: u64) -> u64
    ensures { result ≡ starlark.add_word state word }
{
    (state.rotate_left(5) ^ word).wrapping_mul(0x517cc1b727220a95)
}

// The state after `word` if at least `size` bytes are left, else `state`. It is branch-free, since the comparison would
// be mispredicted if lengths vary: both states are computed, and one is selected.
#[inline]
fn after_word_if_left(state: u64, word: u64, size: usize, left: usize) -> u64
    ensures whole { size ≤ left → result ≡ starlark.add_word state word }
    ensures short { left < size → result ≡ state }
{
    let after = after_word(state, word);
    if size <= left { after } else { state }
}

#[inline]
fn at_most(at: usize, greatest: usize) -> usize
    ensures within { result ≤ greatest }
    ensures same { at ≤ greatest → result ≡ at }
{
    if at < greatest { at } else { greatest }
}

#[inline]
fn read_8(bytes: &[u8], at: usize) -> u64
    requires { at + 8 ≤ length bytes.now }
    ensures { result ≡ starlark.number (take 8 (drop at bytes.now)) }
{
    u64::from_le_bytes([
        bytes[at],
        bytes[at + 1],
        bytes[at + 2],
        bytes[at + 3],
        bytes[at + 4],
        bytes[at + 5],
        bytes[at + 6],
        bytes[at + 7],
    ])
}

#[inline]
fn read_4(bytes: &[u8], at: usize) -> u32
    requires { at + 4 ≤ length bytes.now }
    ensures { result ≡ starlark.number (take 4 (drop at bytes.now)) }
{
    u32::from_le_bytes([bytes[at], bytes[at + 1], bytes[at + 2], bytes[at + 3]])
}

#[inline]
fn read_2(bytes: &[u8], at: usize) -> u64
    requires { at + 2 ≤ length bytes.now }
    ensures { result ≡ starlark.number (take 2 (drop at bytes.now)) }
{
    u16::from_le_bytes([bytes[at], bytes[at + 1]]) as u64
}

#[inline]
fn read_1(bytes: &[u8], at: usize) -> u64
    requires { at < length bytes.now }
    ensures { result ≡ starlark.number (take 1 (drop at bytes.now)) }
{
    bytes[at] as u64
}

#[tactic(auto, using(crate::proofs::HasherLemmas::number_words))]
impl Hasher for StarlarkHasher {
    ghost write = { starlark.write };

    ghost finish = { starlark.finish };

    #[inline]
    fn finish(&self) -> u64 {
        self.state
    }

    #[inline]
    fn write(&mut self, bytes: &[u8]) {
        let hasher = StarlarkHasher { state: self.state };
        *self = after_bytes(hasher, bytes);
    }

    #[inline]
    fn write_u8(&mut self, i: u8)
        ensures as_bytes { self.new ≡ fold starlark.write self.old (fed.u8 i) }
        ensures as_word { self.new ≡ starlark.with_word self.old i }
    {
        self.add_word(i as u64);
    }

    #[inline]
    fn write_u16(&mut self, i: u16)
        ensures as_bytes { self.new ≡ fold starlark.write self.old (fed.u16 i) }
        ensures as_word { self.new ≡ starlark.with_word self.old i }
    {
        self.add_word(i as u64);
    }

    #[inline]
    fn write_u32(&mut self, i: u32)
        ensures as_bytes { self.new ≡ fold starlark.write self.old (fed.u32 i) }
        ensures as_word { self.new ≡ starlark.with_word self.old i }
    {
        self.add_word(i as u64);
    }

    #[inline]
    fn write_u64(&mut self, i: u64)
        ensures as_bytes { self.new ≡ fold starlark.write self.old (fed.u64 i) }
        ensures as_word { self.new ≡ starlark.with_word self.old i }
    {
        self.add_word(i);
    }

    #[inline]
    fn write_usize(&mut self, i: usize)
        ensures as_bytes { self.new ≡ fold starlark.write self.old (fed.usize i) }
        ensures as_word { self.new ≡ starlark.with_word self.old i }
    {
        self.add_word(i as u64);
    }

    #[tactic(auto, using(crate::proofs::HasherLemmas::two_words))]
    #[inline]
    fn write_u128(&mut self, i: u128)
        ensures as_bytes { self.new ≡ fold starlark.write self.old (fed.u128 i) }
        ensures as_words { self.new ≡ starlark.with_word (starlark.with_word self.old (i % 2 ^ 64)) (i / 2 ^ 64) }
    {
        self.add_word((i & 0xffff_ffff_ffff_ffff) as u64);
        self.add_word((i >> 64) as u64);
    }
}

impl Default for StarlarkHasher {
    ghost is_default = { λ s. s ≡ starlark.initial };

    #[inline]
    fn default() -> StarlarkHasher {
        StarlarkHasher::new()
    }
}

/// Makes hashers to which nothing was written.
#[derive(Clone, Copy, Default, Debug)]
pub struct StarlarkHasherBuilder;

impl BuildHasher for StarlarkHasherBuilder {
    type Hasher = StarlarkHasher;

    ghost build_hasher = { λ _. starlark.initial };

    #[inline]
    fn build_hasher(&self) -> StarlarkHasher {
        StarlarkHasher::new()
    }
}
