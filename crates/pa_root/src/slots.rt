//! Slots that are handed over.
ghost use Rattle.std.specs.Prelude.{◌≡◌, ◌≤◌, length, map, take};
ghost use Rattle.pa_root.specs.Filling.{free_item};

use pa_machine::Item;
use pa_slot::Title;

// The first `titles.len()` items are these titles as free ones, which can be handed over.
pub(crate) fn free_items(titles: &[Title]) -> [Item; 16]
    requires few { length titles.now ≤ 16 }
    ensures items { take (length titles.now) result ≡ map free_item titles.now }
    ensures many { length result ≡ 16 }
{
    let none = Item::Raw { start: 0, len: 0 };
    let mut items = [none; 16];
    for i in 0..titles.len() {
        items[i] = Item::Free(titles[i]);
    }
    items
}
