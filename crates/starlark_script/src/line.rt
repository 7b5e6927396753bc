//! Parsing a line from its text.
ghost use Rattle.std.specs.Prelude.{◌≡◌, ◌≢◌, ℕ, ℤ, ◌<◌, ◌≤◌, ◌^◌, [], ◌∷◌, length, All, IsTrue, ◌↔◌, IfSome, IfNone, MatchOption, decimal, FitsSigned};
ghost use Rattle.std.specs.Int.{w64};
ghost use Rattle.std.specs.Fmt.{signed_decimal};
ghost use Rattle.starlark_script.specs.Line.{fields_of, IsTextOf, IsBad, TextsAreOfOne};
ghost use Rattle.starlark_script.specs.Numbers.{IsPlain, IsPlainSigned};
ghost use Rattle.starlark_script.specs.Shown.{shown, AreFields, IsVisible, IsKeyIn};

use starlark_hash::text_key::TextKey;
use starlark_hash::{Hashed, StarlarkHashValue};
use std::str;

// The largest index, and the largest amount of room, in a line.
const MOST: usize = 1_000_000;

/// A line of a script: what it asks for.
#[derive(Clone, Copy)]
pub enum Line<'a> {
    /// Insert the value under this hash and key.
    Put(Hashed<TextKey<'a>>, i64),
    /// Look up the value under this hash and key.
    Get(Hashed<TextKey<'a>>),
    /// Remove the entry under this hash and key.
    Del(Hashed<TextKey<'a>>),
    /// Show the entry at this index, counted from 0.
    At(usize),
    /// Remove the last entry.
    Pop,
    /// Reverse the order of the entries.
    Rev,
    /// Sort the entries by key.
    Sort,
    /// Remove each entry.
    Clear,
    /// Make room for this many new entries.
    Reserve(usize),
    /// Drop the hash index if the map is short enough to do without.
    Slim,
    /// Count the entries.
    Len,
    /// Show the entries in order.
    Walk,
}

// The fields of a text, up to the number of fields that a line may have.
#[derive(Clone, Copy)]
enum Fields<'a> {
    One(&'a str),
    Two(&'a str, &'a str),
    Three(&'a str, &'a str, &'a str),
    Four(&'a str, &'a str, &'a str, &'a str),
    More,
}

/// The line with this text, which excludes the line's end; `None` if the text is a bad line.
pub fn read_line(text: &[u8]) -> Option<Line<'_>>
    requires { length text.now ≤ 1000 }
    ensures { MatchOption result (IsBad text.now) (λ line. IsTextOf text.now (shown line)) }
{
    match str::from_utf8(text) {
        Ok(text) => line_of(text),
        Err(_) => None,
    }
}

/// A text is the text of at most one line, so that a script has one list of lines and of replies.
pub fn texts_are_of_one()
    ensures { TextsAreOfOne }
{}

fn line_of(text: &str) -> Option<Line<'_>>
    requires { length text.now ≤ 1000 }
    ensures { MatchOption result (IsBad text.now) (λ line. IsTextOf text.now (shown line)) }
{
    match fields_in(text) {
        Fields::One("pop") => Some(Line::Pop),
        Fields::One("rev") => Some(Line::Rev),
        Fields::One("sort") => Some(Line::Sort),
        Fields::One("clear") => Some(Line::Clear),
        Fields::One("slim") => Some(Line::Slim),
        Fields::One("len") => Some(Line::Len),
        Fields::One("walk") => Some(Line::Walk),
        Fields::Two("at", index) => Some(Line::At(count_in(index)?)),
        Fields::Two("reserve", additional) => Some(Line::Reserve(count_in(additional)?)),
        Fields::Three("get", hash, key) => Some(Line::Get(key_under(hash, key)?)),
        Fields::Three("del", hash, key) => Some(Line::Del(key_under(hash, key)?)),
        Fields::Four("put", hash, key, value) => {
            Some(Line::Put(key_under(hash, key)?, value_in(value)?))
        }
        _ => None,
    }
}

fn fields_in(text: &str) -> Fields<'_>
    ensures { AreFields result (fields_of text.now) }
{
    let Some((first, rest)) = cut(text) else {
        return Fields::One(text);
    };
    let Some((second, rest)) = cut(rest) else {
        return Fields::Two(first, rest);
    };
    let Some((third, rest)) = cut(rest) else {
        return Fields::Three(first, second, rest);
    };
    match cut(rest) {
        None => Fields::Four(first, second, third, rest),
        Some(_) => Fields::More,
    }
}

// The parts before and behind the first space.
#[inline(always)]
fn cut(text: &str) -> Option<(&str, &str)>
    ensures { MatchOption result (fields_of text.now ≡ text.now ∷ []) (λ parts. fields_of text.now ≡ parts.0.now ∷ fields_of parts.1.now) }
{
    text.split_once(' ')
}

// The key under the hash, if both are spelled as a script spells them.
fn key_under<'a>(hash: &str, key: &'a str) -> Option<Hashed<TextKey<'a>>>
    ensures { IsKeyIn hash.now key.now result }
{
    let hash = number_in(hash)?;
    if !is_visible(key) {
        return None;
    }
    let hash = StarlarkHashValue::new_unchecked(hash);
    Some(Hashed::new_unchecked(hash, TextKey(key)))
}

// Whether the text is one or more visible ASCII characters.
fn is_visible(key: &str) -> bool
    ensures { IsTrue result ↔ IsVisible key.now }
{
    !key.is_empty() && key.as_bytes().iter().all(|b| 33 <= *b && *b <= 126)
}

// The number in this spelling, if it is at most a million.
fn count_in(text: &str) -> Option<usize>
    ensures some { IfSome result (λ n. (text.now ≡ decimal n) × (n ≤ 1000000)) }
    ensures none { IfNone result ((n : ℕ) → n ≤ 1000000 → text.now ≢ decimal n) }
{
    let n = number_in(text)? as usize;
    if n <= MOST { Some(n) } else { None }
}

// The number in this spelling.
fn number_in(text: &str) -> Option<u32>
    ensures some { IfSome result (λ n. text.now ≡ decimal n) }
    ensures none { IfNone result ((n : ℕ) → n < 2 ^ 32 → text.now ≢ decimal n) }
{
    if !is_plain(text.as_bytes()) {
        return None;
    }
    text.parse::<u32>().ok()
}

// The signed number in this spelling.
fn value_in(text: &str) -> Option<i64>
    ensures some { IfSome result (λ z. text.now ≡ signed_decimal z) }
    ensures none { IfNone result ((z : ℤ) → FitsSigned w64 z → text.now ≢ signed_decimal z) }
{
    if !is_plain_signed(text.as_bytes()) {
        return None;
    }
    text.parse::<i64>().ok()
}

fn is_plain(text: &[u8]) -> bool
    ensures { IsTrue result ↔ IsPlain text.now }
{
    if text.is_empty() {
        return true;
    }
    let first = text[0];
    first != b'+' && (first != b'0' || text.len() == 1)
}

fn is_plain_signed(text: &[u8]) -> bool
    ensures { IsTrue result ↔ IsPlainSigned text.now }
{
    if text.len() > 1 && text[0] == b'-' {
        text[1] != b'0'
    } else {
        is_plain(text)
    }
}
