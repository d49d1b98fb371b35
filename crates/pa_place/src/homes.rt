ghost use Rattle.std.specs.Prelude.{◌<◌};

use pa_layout::{PARTITION_PAGE, SUPER_PAGE};
use pa_slot::OutOfMemory;
use std::alloc::Global;

// The partition pages of the region: it has 64 super pages at most.
const PAGES: usize = (64 * (SUPER_PAGE / PARTITION_PAGE)) as usize;

// For each partition page of the region, the index of the span that was last made over it, or 0. It is a hint only: the
// caller checks that the span found there holds the slot.
#[derive(Drop)]
pub(crate) struct Homes {
    places: Vec<u32>,
}

impl Homes {
    // No page is marked.
    pub(crate) fn new(alloc: Global) -> Result<Homes, OutOfMemory> {
        Ok(Homes {
            places: Vec::from_elem(alloc, 0, PAGES)?,
        })
    }

    // Marks `pages` pages, from the one at that byte on, with the index of a span.
    pub(crate) fn mark(&mut self, start: u32, pages: u32, at: usize) {
        let Ok(place) = u32::try_from(at) else {
            return;
        };
        let first = page_at(start);
        for page in first..first + pages as usize {
            if page < self.places.len() {
                self.places[page] = place;
            }
        }
    }

    // The index with which the page of that byte is marked, or 0.
    #[inline]
    pub(crate) fn guess(&self, start: u32) -> usize {
        let page = page_at(start);
        if page < self.places.len() {
            self.places[page] as usize
        } else {
            0
        }
    }
}

// The partition page of a byte, counted through the whole region.
#[inline]
fn page_at(start: u32) -> usize
    ensures { result < 262144 }
{
    (start / PARTITION_PAGE) as usize
}
