//! The equality of texts, fast for short ones.
ghost use Rattle.std.specs.Prelude.{◌≡◌, ◌+◌, ◌≤◌, length, take, drop};
ghost use Rattle.std.specs.Int.{w32, from_le_bytes};
ghost use Rattle.std.specs.Str.{bytes_eq};

// Whether two texts have the same bytes, which is what `==` returns.
//
// Texts of 4 to 20 bytes, which most names are, are compared as five groups of 4 bytes. The groups overlap in shorter
// texts. No jump depends on the length, since it would be mispredicted if lengths vary.
#[inline]
pub(crate) fn same_text(a: &str, b: &str) -> bool
    ensures { result ≡ bytes_eq a.now b.now }
{
    let x = a.as_bytes();
    let y = b.as_bytes();
    if x.len() != y.len() {
        return false;
    }
    if x.len() < 4 {
        return same_few(x, y);
    }
    if x.len() > 20 {
        return same_long(a, b);
    }
    let last = x.len() - 4;
    let next = at_most_4(last);
    same_4(x, y, 0)
        & same_4(x, y, next)
        & same_4(x, y, last / 2)
        & same_4(x, y, last - next)
        & same_4(x, y, last)
}

#[inline]
fn at_most_4(last: usize) -> usize
    ensures within { result ≤ last }
    ensures four { 4 ≤ last → result ≡ 4 }
{
    if 4 < last { 4 } else { last }
}

// Compares up to 3 bytes by the first, the middle and the last one.
#[inline]
#[tactic(auto, using(crate::proofs::SameText::few_tell))]
fn same_few(x: &[u8], y: &[u8]) -> bool
    requires few { length x.now ≤ 3 }
    requires as_many { length x.now ≡ length y.now }
    ensures { result ≡ bytes_eq x.now y.now }
{
    let n = x.len();
    if n == 0 {
        return true;
    }
    (x[0] == y[0]) & (x[n / 2] == y[n / 2]) & (x[n - 1] == y[n - 1])
}

// Compares longer texts. It is out of line, so that a caller of `same_text` stays small.
#[inline(never)]
fn same_long(a: &str, b: &str) -> bool
    ensures { result ≡ bytes_eq a.now b.now }
{
    a == b
}

// Whether the four bytes from `at` on are the same in both.
#[inline]
#[tactic(auto, using(crate::proofs::SameText::groups_tell))]
fn same_4(x: &[u8], y: &[u8], at: usize) -> bool
    requires in_x { at + 4 ≤ length x.now }
    requires in_y { at + 4 ≤ length y.now }
    ensures { result ≡ bytes_eq (take 4 (drop at x.now)) (take 4 (drop at y.now)) }
{
    read_4(x, at) == read_4(y, at)
}

// The four bytes from `at` on as a little-endian number.
#[inline]
fn read_4(bytes: &[u8], at: usize) -> u32
    requires { at + 4 ≤ length bytes.now }
    ensures { result ≡ from_le_bytes w32 (take 4 (drop at bytes.now)) }
{
    u32::from_le_bytes([bytes[at], bytes[at + 1], bytes[at + 2], bytes[at + 3]])
}
