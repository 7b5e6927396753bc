//! Small maps whose values hold small maps, by recursion.
ghost use Rattle.std.specs.Prelude.{◌≡◌, [], IsTrue, true};
ghost use Rattle.starlark_callers.specs.Words.{has_word};
ghost use Rattle.starlark_callers.specs.declared.nested.Words.{out-Words};

use starlark_small::SmallMap;

/// A set of words: each byte leads to what may follow it.
#[derive(Drop)]
pub struct Words {
    ends: bool,
    after: SmallMap<u8, Words>,
}

/// Whether some word is there: the empty one, or one behind a byte.
pub fn has_any(words: &Words) -> bool
    ensures empty { (out-Words words.now).ends ≡ true → IsTrue result }
    ensures alone { (out-Words words.now).after.entries ≡ [] → result ≡ (out-Words words.now).ends }
{
    for next in words.after.values() {
        if has_any(next) {
            return true;
        }
    }
    words.ends
}

/// Whether a word is there.
pub fn has(words: &Words, word: &[u8]) -> bool
    ensures { result ≡ has_word words.now word.now }
{
    let Some((first, rest)) = word.split_first() else {
        return words.ends;
    };
    match words.after.get(first) {
        Some(next) => has(next, rest),
        None => false,
    }
}
