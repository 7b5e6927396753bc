//! Visits of pages, in the order of their first ones. Each proof closes by the contracts of the map alone.
#![tactic(auto)]

ghost use Rattle.std.specs.Hash as fed;
ghost use Rattle.std.specs.Option.{is_some};
ghost use Rattle.std.specs.Prelude.{◌≡◌, ◌+◌, ◌++◌, [], ◌∷◌, nat_eq, length, false, true, None, Some, IfErr, OnOk, OnErr, if◌then◌else◌};
ghost use Rattle.std.specs.String.{string_bytes, string_eq};
ghost use Rattle.starlark_hash.specs.Entries.{without};
ghost use Rattle.starlark_small.specs.Lookup.{get, keys, Updates};
ghost use Rattle.starlark_small.specs.Map.{own_match};

use starlark_hash::NoRoom;
use starlark_small::SmallMap;
use std::hash::Hash;

/// The time of the last visit to each page.
pub type Visits = SmallMap<u32, u32>;

/// Notes the time of a visit to a page. A page that is there keeps its index, and is never refused; a new one goes last.
/// Where memory is refused, page and time come back, and no entry changes.
pub fn record_visit(visits: &mut Visits, page: u32, time: u32) -> Result<(), NoRoom<(u32, u32)>>
    ensures noted { OnOk result (get nat_eq fed.u32 visits.new page ≡ Some time) }
    ensures updates { OnOk result (Updates nat_eq fed.u32 visits.old visits.new page (Some time)) }
    ensures pages { OnOk result (keys visits.new ≡ (if is_some (get nat_eq fed.u32 visits.old page) then keys visits.old else keys visits.old ++ page ∷ [])) }
    ensures absent { OnErr result (get nat_eq fed.u32 visits.old page ≡ None) }
    ensures handed_back { IfErr result (λ refused. refused.0 ≡ (page, time)) }
    ensures refused { OnErr result (visits.new.entries ≡ visits.old.entries) }
{
    visits.insert(page, time)?;
    Ok(())
}

/// Notes the time of the first visit to a page. It goes last. Where memory is refused, page and time come back, and no
/// entry changes.
pub fn record_first_visit(
    visits: &mut Visits,
    page: u32,
    time: u32,
) -> Result<(), NoRoom<(u32, u32)>>
    requires { get nat_eq fed.u32 visits.old page ≡ None }
    ensures updates { OnOk result (Updates nat_eq fed.u32 visits.old visits.new page (Some time)) }
    ensures pages { OnOk result (keys visits.new ≡ keys visits.old ++ page ∷ []) }
    ensures one_more { OnOk result (length visits.new.entries ≡ length visits.old.entries + 1) }
    ensures handed_back { IfErr result (λ refused. refused.0 ≡ (page, time)) }
    ensures refused { OnErr result (visits.new.entries ≡ visits.old.entries) }
{
    visits.insert(page, time)?;
    Ok(())
}

/// Notes another visit to a page that was visited. Where it was not, nothing changes.
pub fn visit_again(visits: &mut Visits, page: u32, time: u32) -> bool
    ensures known { result ≡ is_some (get nat_eq fed.u32 visits.old page) }
    ensures updates { result ≡ true → Updates nat_eq fed.u32 visits.old visits.new page (Some time) }
    ensures pages { keys visits.new ≡ keys visits.old }
    ensures unchanged { result ≡ false → visits.new ≡ visits.old }
{
    match visits.get_mut(&page) {
        Some(last) => {
            *last = time;
            true
        }
        None => false,
    }
}

/// Forgets a page, and answers when it was visited. The other pages keep their order.
pub fn forget(visits: &mut Visits, page: u32) -> Option<u32>
    ensures last { result ≡ get nat_eq fed.u32 visits.old page }
    ensures updates { Updates nat_eq fed.u32 visits.old visits.new page None }
    ensures entries { visits.new.entries ≡ without visits.old.entries (own_match nat_eq fed.u32 visits.old.entries page) }
{
    visits.shift_remove(&page)
}

/// Notes the time of a visit to a page that is named by a text. A name that is there is never refused. Where memory is
/// refused, name and time come back, and no entry changes.
pub fn record_named(
    visits: &mut SmallMap<String, u32>,
    name: String,
    time: u32,
) -> Result<(), NoRoom<(String, u32)>>
    ensures noted { OnOk result (get string_eq (λ s. fed.str (string_bytes s)) visits.new name ≡ Some time) }
    ensures updates { OnOk result (Updates string_eq (λ s. fed.str (string_bytes s)) visits.old visits.new name (Some time)) }
    ensures absent { OnErr result (get string_eq (λ s. fed.str (string_bytes s)) visits.old name ≡ None) }
    ensures handed_back { IfErr result (λ refused. refused.0 ≡ (name, time)) }
    ensures refused { OnErr result (visits.new.entries ≡ visits.old.entries) }
{
    visits.insert(name, time)?;
    Ok(())
}

/// Puts a value at a key of any type. A key that is there is never refused. Where memory is refused, key and value come
/// back, and no entry changes.
pub fn put<K: Eq + Hash + Drop, V: Drop>(
    map: &mut SmallMap<K, V>,
    key: K,
    value: V,
) -> Result<(), NoRoom<(K, V)>>
    ensures updates { OnOk result (Updates K.eq K.hash_input map.old map.new key (Some value)) }
    ensures absent { OnErr result (get K.eq K.hash_input map.old key ≡ None) }
    ensures handed_back { IfErr result (λ refused. refused.0 ≡ (key, value)) }
    ensures refused { OnErr result (map.new.entries ≡ map.old.entries) }
{
    map.insert(key, value)?;
    Ok(())
}
