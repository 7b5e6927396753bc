//! Notes visits of pages, in the order of their first ones.
#![tactic(auto)]

ghost use Rattle.std.specs.List.{list_all};
ghost use Rattle.std.specs.Prelude.{◌≡◌, ℕ, nat_eq, nat_le, false, None, Some, IfErr, OnOk, OnErr};
ghost use Rattle.starlark_dict.specs.Dict.{get, insert_entry, values};

use starlark_dict::Dict;
use starlark_hash::NoRoom;
use std::io;

/// The time of the last visit to each page.
type Visits = Dict<u32, u32>;

/// Notes the time of a visit to a page.
fn record_visit(visits: &mut Visits, page: u32, time: u32) -> Result<(), NoRoom<(u32, u32)>>
    ensures noted { OnOk result (get nat_eq visits.new page ≡ Some time) }
    ensures others { OnOk result ((other : ℕ) → nat_eq page other ≡ false → get nat_eq visits.new other ≡ get nat_eq visits.old other) }
    ensures order { OnOk result (visits.new.entries ≡ insert_entry nat_eq visits.old.entries page time) }
    ensures absent { OnErr result (get nat_eq visits.old page ≡ None) }
    ensures handed_back { IfErr result (λ refused. refused.0 ≡ (page, time)) }
    ensures refused { OnErr result (visits.new.entries ≡ visits.old.entries) }
{
    visits.insert(page, time)?;
    Ok(())
}

/// Whether the last visit to each page was at this time or later.
fn are_since(visits: &Visits, time: u32) -> bool
    ensures { result ≡ list_all (nat_le time) (values visits.now) }
{
    for last in visits.values() {
        if *last < time {
            return false;
        }
    }
    true
}

fn main(rt: HostRuntime) -> io::Result<()> {
    let mut visits = Dict::new(rt.alloc());
    record_visit(&mut visits, 7, 100)?;
    record_visit(&mut visits, 3, 101)?;
    record_visit(&mut visits, 7, 102)?;
    for (page, time) in &visits {
        println!(rt; "{page}: {time}")?;
    }
    println!(rt; "all since 101: {}", are_since(&visits, 101))
}
