//! The loop that replaces each item.
ghost use Rattle.std.specs.Prelude.{◌≡◌, ◌<◌, length, drop};
ghost use Rattle.starlark_table.specs.Table.{items_in};
ghost use Rattle.starlark_table.specs.Walk.{CanReplace, ReplacesEach, ReplacesWithin};
ghost use Rattle.starlark_table.specs.Layout.{IsTagged, IsTaggedFrom};

use crate::kept_hash::KeptHash;
use crate::probe::Slots;
use crate::tags::full_slots;

// Replaces each item by what `f` returns for it.
pub(crate) fn replace_items<T: Drop, H: KeptHash, F: FnMut(&T) -> T>(
    slots: &mut Slots<T, H>,
    tags: &[u8],
    mut f: F,
)
    requires tagged { IsTagged tags.now slots.old }
    requires callable { CanReplace F.FnMut (items_in slots.old) f }
    ensures { (last : F) × ReplacesEach F.FnMut f slots.old slots.new last }
{
    let mut start = 0;
    'windows: while start < slots.cells() {
        start = replace_window(slots, tags, start, &mut f);
    }
}

// Replaces the items of a group of slots, and returns the end of the group.
fn replace_window<T: Drop, H: KeptHash, F: FnMut(&T) -> T>(
    slots: &mut Slots<T, H>,
    tags: &[u8],
    start: usize,
    f: &mut F,
) -> usize
    requires start { start < length slots.old }
    requires tagged { IsTaggedFrom start tags.now slots.old }
    requires callable { CanReplace F.FnMut (items_in (drop start slots.old)) f.old }
    ensures some { start < result }
    ensures sized { length slots.new ≡ length slots.old }
    ensures replaced { ReplacesWithin F.FnMut f.old slots.old slots.new f.new start result }
{
    let (mut full, end) = full_slots(tags, start);
    'members: while full != 0 {
        let slot = start + full.trailing_zeros() as usize;
        let (_, item) = slots.get_mut(slot);
        *item = f(item);
        full &= full - 1;
    }
    end
}
