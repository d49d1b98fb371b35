ghost use Rattle.std.specs.Prelude.{◌≡◌, ◌≢◌, ◌-◌, ◌<◌, ◌≤◌, ◌^◌, All, AllPairs, find, length, map, vec_len};
ghost use Rattle.pa_record.specs.Spans.{name_of, holds};
ghost use Rattle.pa_record.specs.Root.{IsOut, put_back, empties, oldest_decommitted, settled, returned, all_returned, purged};
ghost use Rattle.pa_record.specs.Sound.{IsSound};
ghost use Rattle.pa_place.specs.Order.{IsOrdered};
ghost use Rattle.pa_place.specs.Store.{root_of, IsFiled};

use crate::lists::first_listed;
use crate::scans::index_holding;
use crate::store::Store;
use pa_buckets::State;
use pa_slot::{SlotName, Title};

// The most spans that stay empty.
const MOST_EMPTY: usize = 16;

impl Store {
    // Returns the slots one by one. Each is out, and is listed once.
    pub(crate) fn give_all(&mut self, titles: &[Title])
        requires sound { IsSound (root_of self.old) }
        requires ordered { IsOrdered (root_of self.old) }
        requires filed { IsFiled self.old }
        requires settled { empties (root_of self.old) ≤ 16 }
        requires few { length titles.now ≤ 16 }
        requires turn { self.old.turn < 2 ^ 62 }
        requires out { All (IsOut (root_of self.old)) (map name_of titles.now) }
        requires once { AllPairs ◌≢◌ (map name_of titles.now) }
        ensures returned { root_of self.new ≡ all_returned (map name_of titles.now) (root_of self.old) }
        ensures ordered { IsOrdered (root_of self.new) }
        ensures filed { IsFiled self.new }
        ensures many { vec_len self.new.spans ≡ vec_len self.old.spans }
    {
        for title in titles {
            self.give(SlotName {
                start: title.start,
                born: title.born,
            });
        }
    }

    // Returns the slot of that name, which is out.
    fn give(&mut self, name: SlotName)
        requires sound { IsSound (root_of self.old) }
        requires ordered { IsOrdered (root_of self.old) }
        requires filed { IsFiled self.old }
        requires settled { empties (root_of self.old) ≤ 16 }
        requires out { IsOut (root_of self.old) name }
        requires turn { self.old.turn < 2 ^ 63 - 1 }
        ensures returned { root_of self.new ≡ returned name (root_of self.old) }
        ensures ordered { IsOrdered (root_of self.new) }
        ensures filed { IsFiled self.new }
        ensures many { vec_len self.new.spans ≡ vec_len self.old.spans }
    {
        self.put_back(name);
        self.settle();
    }

    // Puts the slot of that name, which is out, at the front of its span's list.
    fn put_back(&mut self, name: SlotName)
        requires sound { IsSound (root_of self.old) }
        requires ordered { IsOrdered (root_of self.old) }
        requires filed { IsFiled self.old }
        requires settled { empties (root_of self.old) ≤ 16 }
        requires out { IsOut (root_of self.old) name }
        requires turn { self.old.turn < 2 ^ 63 - 1 }
        ensures back { root_of self.new ≡ put_back name (find (holds name) self.old.spans.items) (root_of self.old) }
        ensures ordered { IsOrdered (root_of self.new) }
        ensures filed { IsFiled self.new }
        ensures many { vec_len self.new.spans ≡ vec_len self.old.spans }
    {
        if let Some(at) = index_holding(&self.spans, &self.homes, name) {
            let span = &mut self.spans[at];
            span.put_back(name);
            let state = span.state_back();
            self.enter(at, state);
        }
    }

    // Decommits the empty span with the least turn if more than 16 are empty.
    fn settle(&mut self)
        requires sound { IsSound (root_of self.old) }
        requires ordered { IsOrdered (root_of self.old) }
        requires filed { IsFiled self.old }
        requires turn { self.old.turn < 2 ^ 63 }
        ensures settled { root_of self.new ≡ settled (root_of self.old) }
        ensures ordered { IsOrdered (root_of self.new) }
        ensures filed { IsFiled self.new }
        ensures many { vec_len self.new.spans ≡ vec_len self.old.spans }
    {
        if self.empties() > MOST_EMPTY {
            self.decommit_oldest();
        }
    }

    // How many spans are empty.
    fn empties(&self) -> usize
        requires { IsFiled self.now }
        ensures { result ≡ empties (root_of self.now) }
    {
        self.lists.empty.len()
    }

    // Decommits the empty span with the least turn, if one is empty.
    fn decommit_oldest(&mut self)
        requires sound { IsSound (root_of self.old) }
        requires ordered { IsOrdered (root_of self.old) }
        requires filed { IsFiled self.old }
        requires turn { self.old.turn < 2 ^ 63 }
        ensures oldest { root_of self.new ≡ oldest_decommitted (root_of self.old) }
        ensures ordered { IsOrdered (root_of self.new) }
        ensures filed { IsFiled self.new }
        ensures many { vec_len self.new.spans ≡ vec_len self.old.spans }
    {
        if let Some(at) = first_listed(&self.lists.empty) {
            self.spans[at].drop_pages();
            self.enter(at, State::Decommitted);
        }
    }

    // Decommits every empty span, the one with the least turn first.
    pub(crate) fn purge(&mut self)
        requires sound { IsSound (root_of self.old) }
        requires ordered { IsOrdered (root_of self.old) }
        requires filed { IsFiled self.old }
        requires settled { empties (root_of self.old) ≤ 16 }
        requires turn { self.old.turn < 2 ^ 62 }
        ensures purged { root_of self.new ≡ purged (root_of self.old) }
        ensures ordered { IsOrdered (root_of self.new) }
        ensures filed { IsFiled self.new }
        ensures many { vec_len self.new.spans ≡ vec_len self.old.spans }
    {
        let empties = self.empties();
        for _empty in 0..empties {
            self.decommit_oldest();
        }
    }
}
