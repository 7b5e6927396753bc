//! A build graph: targets in the order of their first declarations, each with what it is built from.
#![tactic(auto)]

ghost use Rattle.std.specs.Hash as fed;
ghost use Rattle.std.specs.List.{enumerate_from, list_all};
ghost use Rattle.std.specs.Option.{is_some, option_map};
ghost use Rattle.std.specs.Prelude.{◌≡◌, ◌↔◌, ℕ, ◌++◌, [], ◌∷◌, map, nat_eq, true, None, Some, IsSome, IsTrue, IfErr, IfOk, OnOk, OnErr, if◌then◌else◌};
ghost use Rattle.starlark_hash.specs.Entries.{entry_value};
ghost use Rattle.starlark_small.specs.Lookup.{get, keys};
ghost use Rattle.starlark_uses.specs.Graph.{IsOrdered, built_from, is_before};

use starlark_hash::NoRoom;
use starlark_small::SmallMap;
use std::alloc::{AllocError, Global};

/// Targets, each with the targets that it is built from.
pub type Targets = SmallMap<u32, Vec<u32>>;

/// Declares a target. One that was declared keeps its index, and all that it depends on, and is never refused; a new
/// one goes last, and depends on nothing. All others keep what they depend on. Where memory is refused, the target
/// comes back without parts, and no entry changes.
pub fn declare(
    alloc: Global,
    targets: &mut Targets,
    target: u32,
) -> Result<(), NoRoom<(u32, Vec<u32>)>>
    // The targets afterwards.
    ensures declared { OnOk result (is_some (get nat_eq fed.u32 targets.new target) ≡ true) }
    ensures order { OnOk result (keys targets.new ≡ (if is_some (get nat_eq fed.u32 targets.old target) then keys targets.old else keys targets.old ++ target ∷ [])) }
    ensures again { IsSome (get nat_eq fed.u32 targets.old target) → targets.new ≡ targets.old }
    ensures empty { OnOk result (get nat_eq fed.u32 targets.old target ≡ None → built_from targets.new target ≡ Some []) }
    ensures others { (other : ℕ) → (other ≡ target → ⊥) → built_from targets.new other ≡ built_from targets.old other }

    // A refusal.
    ensures absent { OnErr result (get nat_eq fed.u32 targets.old target ≡ None) }
    ensures handed_back { IfErr result (λ refused. refused.0.0 ≡ target) }
    ensures handed_back_parts { IfErr result (λ refused. refused.0.1.items ≡ []) }
    ensures refused { OnErr result (targets.new.entries ≡ targets.old.entries) }
{
    if targets.contains_key(&target) {
        return Ok(());
    }
    targets.insert(target, Vec::new(alloc))?;
    Ok(())
}

/// Adds to what a declared target depends on, last, and answers whether it was declared. All targets keep their indices,
/// and what the others depend on. Only a declared one is refused, for want of memory, and then nothing changes.
pub fn depend(targets: &mut Targets, target: u32, on: u32) -> Result<bool, AllocError>
    ensures declared { IfOk result (λ declared. declared ≡ is_some (get nat_eq fed.u32 targets.old target)) }
    ensures order { keys targets.new ≡ keys targets.old }
    ensures added { OnOk result (built_from targets.new target ≡ option_map (λ parts. parts ++ on ∷ []) (built_from targets.old target)) }
    ensures others { (other : ℕ) → (other ≡ target → ⊥) → built_from targets.new other ≡ built_from targets.old other }
    ensures refused { OnErr result (IsSome (built_from targets.old target)) }
    ensures unchanged { OnErr result ((other : ℕ) → built_from targets.new other ≡ built_from targets.old other) }
{
    match targets.get_mut(&target) {
        Some(dependencies) => {
            dependencies.push(on)?;
            Ok(true)
        }
        None => Ok(false),
    }
}

/// Whether each target was declared after all that it depends on, so that they can be built one after another: a
/// look-up finds each of these at an index before the target's.
pub fn is_ordered(targets: &Targets) -> bool
    ensures { IsTrue result ↔ IsOrdered targets.now }
{
    come_after_parts(targets)
}

// Whether the walk finds each target after all that it depends on.
fn come_after_parts(targets: &Targets) -> bool
    ensures { result ≡ list_all (λ p. list_all (is_before targets.now p.0) p.1.items) (enumerate_from 0 (map entry_value targets.now.entries)) }
{
    targets.values().enumerate().all(|(index, dependencies)| are_before(
        targets,
        dependencies,
        index,
    ))
}

// Whether all of these were declared before this index.
fn are_before(targets: &Targets, dependencies: &[u32], index: usize) -> bool
    ensures { result ≡ list_all (is_before targets.now index) dependencies.now }
{
    dependencies
        .iter()
        .all(|on| was_before(targets, *on, index))
}

// Whether a target was declared before this index.
fn was_before(targets: &Targets, target: u32, index: usize) -> bool
    ensures { result ≡ is_before targets.now index target }
{
    match targets.get_index_of(&target) {
        Some(found) => found < index,
        None => false,
    }
}
