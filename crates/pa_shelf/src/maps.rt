//! Direct maps.
ghost use Rattle.std.specs.Prelude.{◌≡◌, ◌<◌, ◌++◌, ◌∷◌, [], ◌==◌, ◌&&◌, length, position};
ghost use Rattle.pa_layout.specs.Limits.{region_supers};
ghost use Rattle.pa_record.specs.Root.{Root, mapped, unmapped, without_map};
ghost use Rattle.pa_region.specs.declared.view.View.{View};
ghost use Rattle.pa_shelf.specs.Shelves.{ShowsRoot};

use crate::shelf::Shelf;
use pa_slot::{SlotName, Title};

impl Shelf {
    /// A direct map joins, after the others. It allocates nothing.
    pub fn map(&mut self, title: Title)
        requires few { length self.old.maps < region_supers }
        ensures parts { self.new ≡ record self.old { maps = self.old.maps ++ title ∷ [] } }
        ensures shown { (v : View) (r : Root) → ShowsRoot v self.old r → ShowsRoot v self.new (mapped title r) }
    {
        self.maps.push_reserved(title);
    }

    /// Removes the direct map of this name. Nothing changes if there is none.
    pub fn unmap(&mut self, name: SlotName)
        ensures parts { self.new ≡ record self.old { maps = without_map name self.old.maps } }
        ensures shown { (v : View) (r : Root) → ShowsRoot v self.old r → ShowsRoot v self.new (unmapped name r) }
    {
        if let Some(at) = place_named(&self.maps, name) {
            self.maps.remove(at);
        }
    }
}

// The index of the direct map of this name.
fn place_named(maps: &[Title], name: SlotName) -> Option<usize>
    ensures { result ≡ position (λ t. (t.start == name.start) && (t.born == name.born)) maps.now }
{
    maps.iter()
        .position(|map| map.start == name.start && map.born == name.born)
}
