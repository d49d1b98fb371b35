ghost use Rattle.std.specs.Prelude.{◌≡◌, ℕ, ◌<◌, ◌≤◌, ◌^◌, IfSome, count_by, length, vec_len};
ghost use Rattle.std.specs.Vec.{vec_capacity};
ghost use Rattle.pa_buckets.specs.declared.spans.State.TheVariants as state;
ghost use Rattle.pa_record.specs.Spans.{is_in, is_of, latest, listed};
ghost use Rattle.pa_record.specs.Sound.{IsSound};
ghost use Rattle.pa_place.specs.Filed.{HasRoomToList};
ghost use Rattle.pa_place.specs.Scans.{span_at};
ghost use Rattle.pa_place.specs.Store.{root_of, IsFiled, HaveTurns, EntersAt};

use crate::lists::last_listed;
use crate::store::Store;
use pa_buckets::{Class, State};

impl Store {
    // The span there enters the state, and is listed by it.
    pub(crate) fn enter(&mut self, at: usize, to: State)
        requires here { at < length self.old.spans.items }
        requires filed { IsFiled self.old }
        requires turns { HaveTurns self.old.spans.items self.old.turn }
        requires ring { to ≡ state.Empty → count_by (is_in state.Empty) self.old.spans.items ≤ 16 }
        requires turn { self.old.turn < 2 ^ 63 }
        ensures entered { EntersAt (root_of self.old) (root_of self.new) at to }
        ensures filed { IsFiled self.new }
        ensures lists { (class n : ℕ) → HasRoomToList class n self.old.lists → HasRoomToList class n self.new.lists }
        ensures many { vec_len self.new.spans ≡ vec_len self.old.spans }
        ensures room { vec_capacity self.new.spans ≡ vec_capacity self.old.spans }
    {
        let span = &self.spans[at];
        let class = span.class();
        let was = span.state();
        self.lists.refile(&self.spans, class, was, to, at);
        self.turn = self.spans[at].enter(to, self.turn);
    }

    // The index of the span from which a slot of the class is taken if no new one is made: of the active ones the one
    // that became so last; else of the empty ones; else of the decommitted ones.
    pub(crate) fn listed(&self, class: Class) -> Option<usize>
        requires sound { IsSound (root_of self.now) }
        requires filed { IsFiled self.now }
        ensures listed { span_at self.now.spans.items result ≡ listed class self.now.spans.items }
        ensures within { IfSome result (λ at. at < length self.now.spans.items) }
    {
        let active = self.latest_active(class);
        if active.is_some() {
            return active;
        }
        let empty = self.latest_empty(class);
        if empty.is_some() {
            return empty;
        }
        self.latest_decommitted(class)
    }

    // The index of the span of the class that became active last.
    fn latest_active(&self, class: Class) -> Option<usize>
        requires sound { IsSound (root_of self.now) }
        requires filed { IsFiled self.now }
        ensures latest { span_at self.now.spans.items result ≡ latest (is_of class state.Active) self.now.spans.items }
        ensures within { IfSome result (λ at. at < length self.now.spans.items) }
    {
        last_listed(&self.lists.active, class)
    }

    // The index of the span of the class that became decommitted last.
    fn latest_decommitted(&self, class: Class) -> Option<usize>
        requires sound { IsSound (root_of self.now) }
        requires filed { IsFiled self.now }
        ensures latest { span_at self.now.spans.items result ≡ latest (is_of class state.Decommitted) self.now.spans.items }
        ensures within { IfSome result (λ at. at < length self.now.spans.items) }
    {
        last_listed(&self.lists.decommitted, class)
    }

    // The index of the span of the class that became empty last.
    fn latest_empty(&self, class: Class) -> Option<usize>
        requires sound { IsSound (root_of self.now) }
        requires filed { IsFiled self.now }
        ensures latest { span_at self.now.spans.items result ≡ latest (is_of class state.Empty) self.now.spans.items }
        ensures within { IfSome result (λ at. at < length self.now.spans.items) }
    {
        for listed in (0..self.lists.empty.len()).rev() {
            let at = self.lists.empty[listed];
            if self.spans[at].class() == class {
                return Some(at);
            }
        }
        None
    }
}
