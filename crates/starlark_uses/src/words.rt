//! The words of a text, each with how often it comes, in the order of their first times.
ghost use Rattle.std.specs.Prelude.{◌≡◌, ℕ, ◌+◌, ◌^◌, ◌<◌, List, IfOk, OnOk};
ghost use Rattle.starlark_uses.specs.Words.{CountsOneMore, HasNoZero, HasWords, IsTallyOf, count_of};

use starlark_dict::Dict;
use std::alloc::{AllocError, Global};

/// How often each word comes.
pub type Tally = Dict<String, u64>;

/// How often a word was counted.
pub fn count_of(tally: &Tally, word: &str) -> u64
    ensures { result ≡ count_of tally.now word.now }
{
    tally.get(word).copied().unwrap_or(0)
}

/// Counts a word once more. Where memory is refused, nothing is said of the tally.
pub fn bump(tally: &mut Tally, alloc: Global, word: &str) -> Result<(), AllocError>
    requires no_zero { HasNoZero tally.old }
    requires fits { count_of tally.old word.now + 1 < 2 ^ 64 }
    ensures { OnOk result (CountsOneMore tally.old tally.new word.now) }
{
    let next = count_of(tally, word) + 1;
    let key = String::from_str(alloc, word)?;
    tally.insert(key, next)?;
    Ok(())
}

/// Counts the words of a text.
pub fn tally_of(alloc: Global, text: &str) -> Result<Tally, AllocError>
    ensures { IfOk result (λ tally. (words : List (List ℕ)) × HasWords text.now words × IsTallyOf words tally) }
{
    let mut tally = Dict::new(alloc);
    for word in text.split_whitespace() {
        bump(&mut tally, alloc, word)?;
    }
    Ok(tally)
}
