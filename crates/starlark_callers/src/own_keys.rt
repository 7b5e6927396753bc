//! Small maps and sets of keys of the caller's own, whose equality and hash are derived.
ghost use Rattle.std.specs.Prelude.{◌≡◌, false, true, not, Some, IfOk, OnOk};
ghost use Rattle.starlark_small.specs.Lookup.{contains, get};
ghost use Rattle.starlark_callers.specs.Pages.{page_eq, page_feeds};
ghost use Rattle.starlark_callers.specs.declared.own_keys.Page.{Page};

use starlark_hash::NoRoom;
use starlark_sets::SmallSet;
use starlark_small::SmallMap;

/// A page of a site.
#[derive(PartialEq, Eq, Hash, Drop)]
pub struct Page {
    site: u32,
    number: u32,
}

/// Notes when a page was visited last.
pub fn visit(
    visits: &mut SmallMap<Page, u64>,
    page: Page,
    time: u64,
) -> Result<(), NoRoom<(Page, u64)>>
    ensures here { OnOk result (get page_eq page_feeds visits.new page ≡ Some time) }
    ensures others { OnOk result ((other : Page) → page_eq page other ≡ false → get page_eq page_feeds visits.new other ≡ get page_eq page_feeds visits.old other) }
{
    visits.insert(page, time)?;
    Ok(())
}

/// When a page was visited last.
pub fn visited(visits: &SmallMap<Page, u64>, page: &Page) -> Option<u64>
    ensures { result ≡ get page_eq page_feeds visits.now page.now }
{
    match visits.get(page) {
        Some(time) => Some(*time),
        None => None,
    }
}

/// Marks a page, and answers whether it was not marked.
pub fn mark(marked: &mut SmallSet<Page>, page: Page) -> Result<bool, NoRoom<Page>>
    ensures is_new { IfOk result (λ is_new. is_new ≡ not (contains page_eq page_feeds marked.old page)) }
    ensures here { OnOk result (contains page_eq page_feeds marked.new page ≡ true) }
    ensures others { OnOk result ((other : Page) → page_eq page other ≡ false → contains page_eq page_feeds marked.new other ≡ contains page_eq page_feeds marked.old other) }
{
    marked.insert(page)
}
