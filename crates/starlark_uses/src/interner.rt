//! Texts as numbers, and back: what an interpreter does with the names that it reads.
ghost use Rattle.std.specs.Prelude.{◌≡◌, ℕ, List, [], length, None, Some, IfOk, IfSome, OnErr, OnOk};
ghost use Rattle.std.specs.Option.{option_copied};
ghost use Rattle.starlark_uses.specs.Interned.{interned, number_of, text_of};

use starlark_sets::SmallSet;
use std::alloc::{AllocError, Global};
use std::marker::Model;

/// Texts that have numbers, counted from 0. It is seen as the list of the texts, in the order of their numbers.
#[derive(Drop)]
pub struct Interner {
    texts: SmallSet<String>,
}

impl Model for Interner {
    ghost use Rattle.starlark_uses.specs.Interned.{HasNumbers, Texts, texts_in};

    ghost Value = { Texts };

    ghost view = { λ i. texts_in i.texts.entries };

    ghost invariant = { λ i. HasNumbers i.texts.entries };
}

impl Interner {
    /// No text has a number. It takes no memory.
    pub fn new(alloc: Global) -> Interner
        ensures { result ≡ [] }
    {
        Interner {
            texts: SmallSet::new(alloc),
        }
    }

    /// How many texts have numbers.
    pub fn len(&self) -> usize
        ensures { result ≡ length self.now }
    {
        self.texts.len()
    }

    /// The number of a text, where it has one.
    pub fn number(&self, text: &str) -> Option<usize>
        ensures number { result ≡ number_of self.now text.now }
        ensures text { IfSome result (λ number. text_of self.now number ≡ Some text.now) }
    {
        self.texts.get_index_of(text)
    }

    /// The text of a number, where there is one.
    pub fn text(&self, number: usize) -> Option<&str>
        ensures text { option_copied result ≡ text_of self.now number }
        ensures number { IfSome result (λ text. number_of self.now text.now ≡ Some number) }
    {
        let text = self.texts.get_index(number)?;
        Some(text.as_str())
    }

    /// The number of a text, which has it from now on. A text that has a number keeps it, and is never refused; a new
    /// one gets the next number, or is refused for want of memory, and then all is as it was. All other texts keep
    /// their numbers, and none has this one.
    pub fn intern(&mut self, text: &str) -> Result<usize, AllocError>
        // The text and its number belong to each other alone.
        ensures number { IfOk result (λ number. number_of self.new text.now ≡ Some number) }
        ensures text { IfOk result (λ number. text_of self.new number ≡ Some text.now) }
        ensures different { IfOk result (λ number. (other : List ℕ) → number_of self.new other ≡ Some number → other ≡ text.now) }

        // All texts and numbers afterwards.
        ensures texts { OnOk result (self.new ≡ interned self.old text.now) }
        ensures stable { (other : List ℕ) (number : ℕ) → number_of self.old other ≡ Some number → number_of self.new other ≡ Some number }
        ensures others { (other : List ℕ) → (other ≡ text.now → ⊥) → number_of self.new other ≡ number_of self.old other }

        // A refusal.
        ensures absent { OnErr result (number_of self.old text.now ≡ None) }
        ensures unchanged { OnErr result (self.new ≡ self.old) }
    {
        let number = self.texts.index_or_insert_owned(text)?;
        Ok(number)
    }
}
