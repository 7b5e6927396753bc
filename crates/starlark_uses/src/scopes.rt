//! The scopes of an interpreter: what a name is bound to, from the innermost scope outwards.
ghost use Rattle.std.specs.Prelude.{◌≡◌, ℕ, List, [], ◌∷◌, ◌++◌, length, false, None, Some, IfErr, IfOk, IsTrue, OnErr, OnOk};
ghost use Rattle.std.specs.Option.{option_copied};
ghost use Rattle.std.specs.String.{string_bytes};
ghost use Rattle.starlark_uses.specs.Bindings.{IsInnermost, bound, found, lookup, scopes_of};

use starlark_dict::Dict;
use starlark_hash::NoRoom;
use std::alloc::{AllocError, Global};
use std::marker::Model;
use std::mem;

/// The scopes that an interpreter is in, one within the other. There is always one, the outermost. No call requires
/// anything.
#[derive(Drop)]
pub struct Scopes<V> {
    innermost: Dict<String, V>,
    // Those around it, the outermost first.
    enclosing: Vec<Dict<String, V>>,
    alloc: Global,
}

impl<V> Model for Scopes<V> {
    ghost use Rattle.std.specs.Coded.{codes};
    ghost use Rattle.starlark_uses.specs.Bindings.{Bindings, bindings, bindings_code};

    ghost Value = { Bindings V };

    ghost coded = { bindings_code (Prim.hlevel codes) V.code };

    ghost view = { λ s. bindings s.innermost s.enclosing.items };
}

impl<V> Scopes<V> {
    /// The outermost scope alone, in which no name is bound. It takes no memory.
    pub fn new(alloc: Global) -> Scopes<V>
        ensures enclosing { result.enclosing ≡ [] }
        ensures unbound { (name : List ℕ) → lookup result name ≡ None }
    {
        Scopes {
            innermost: Dict::new(alloc),
            enclosing: Vec::new(alloc),
            alloc,
        }
    }

    /// The value of the innermost scope that binds the name.
    #[tactic(auto, using(crate::proofs::Found::lookup_innermost))]
    pub fn get(&self, name: &str) -> Option<&V>
        ensures value { option_copied result ≡ lookup self.now name.now }
        ensures innermost { IsInnermost (scopes_of self.now) name.now (option_copied result) }
    {
        match self.innermost.get(name) {
            Some(value) => Some(value),
            None => find(&self.enclosing, name),
        }
    }

    /// The innermost scope, to be walked.
    pub fn innermost(&self) -> &Dict<String, V>
        ensures { result.now ≡ self.now.innermost }
    {
        &self.innermost
    }

    /// How many scopes there are around the innermost.
    pub fn depth(&self) -> usize
        ensures { result ≡ length self.now.enclosing }
    {
        self.enclosing.len()
    }

    /// Binds the name in the innermost scope, and answers the value that it had there. What the scopes around it bind
    /// the name to is hidden by it and stays as it was, as in a function of Starlark. All other names are bound as
    /// before. A name that the innermost scope binds is never refused. Where memory is, the name and the value come
    /// back, and all is as it was.
    pub fn assign(&mut self, name: String, value: V) -> Result<Option<V>, NoRoom<(String, V)>>
        // The value that was there, and what the look-ups answer now.
        ensures old { IfOk result (λ old. old ≡ bound self.old.innermost (string_bytes name)) }
        ensures value { OnOk result (lookup self.new (string_bytes name) ≡ Some value) }
        ensures others { (other : List ℕ) → (other ≡ string_bytes name → ⊥) → lookup self.new other ≡ lookup self.old other }
        ensures enclosing { self.new.enclosing ≡ self.old.enclosing }

        // A refusal.
        ensures absent { OnErr result (bound self.old.innermost (string_bytes name) ≡ None) }
        ensures handed_back { IfErr result (λ refused. refused.0 ≡ (name, value)) }
        ensures unchanged { OnErr result ((other : List ℕ) → lookup self.new other ≡ lookup self.old other) }
        ensures entries { OnErr result (self.new.innermost.entries ≡ self.old.innermost.entries) }
    {
        self.innermost.insert(name, value)
    }

    /// Unbinds the name in the innermost scope, and answers the value that it had there. What the scopes around it bind
    /// the name to is seen again. All other names are bound as before.
    pub fn delete(&mut self, name: &str) -> Option<V>
        ensures old { result ≡ bound self.old.innermost name.now }
        ensures uncovered { lookup self.new name.now ≡ found self.old.enclosing name.now }
        ensures others { (other : List ℕ) → (other ≡ name.now → ⊥) → lookup self.new other ≡ lookup self.old other }
        ensures enclosing { self.new.enclosing ≡ self.old.enclosing }
    {
        self.innermost.shift_remove(name)
    }
}

impl<V: Drop> Scopes<V> {
    /// Enters a scope in which no name is bound yet, so that every look-up answers as before. Where memory is refused,
    /// all is as it was.
    pub fn enter(&mut self) -> Result<(), AllocError>
        ensures innermost { OnOk result (self.new.innermost.entries ≡ []) }
        ensures enclosing { OnOk result (self.new.enclosing ≡ self.old.enclosing ++ self.old.innermost ∷ []) }
        ensures same { (name : List ℕ) → lookup self.new name ≡ lookup self.old name }
        ensures unchanged { OnErr result (self.new ≡ self.old) }
    {
        self.enclosing.reserve(1)?;
        let outer = mem::replace(&mut self.innermost, Dict::new(self.alloc));
        self.enclosing.push(outer)?;
        Ok(())
    }

    /// Leaves the innermost scope, whose bindings are dropped, for the one around it. The outermost is not left:
    /// `false` says that it is the innermost.
    pub fn leave(&mut self) -> bool
        ensures left { IsTrue result → self.old.enclosing ≡ self.new.enclosing ++ self.new.innermost ∷ [] }
        ensures outermost { result ≡ false → (self.old.enclosing ≡ []) × (self.new ≡ self.old) }
    {
        match self.enclosing.pop() {
            Some(outer) => {
                self.innermost = outer;
                true
            }
            None => false,
        }
    }
}

// From the last of these scopes to the first.
fn find<'a, V>(scopes: &'a [Dict<String, V>], name: &str) -> Option<&'a V>
    ensures { option_copied result ≡ found scopes.now name.now }
{
    for i in (0..scopes.len()).rev() {
        if let Some(value) = scopes[i].get(name) {
            return Some(value);
        }
    }
    None
}
