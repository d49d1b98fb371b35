ghost use Rattle.std.specs.Prelude.{◌≡◌, [], ℕ, ◌+◌, ◌<◌, ◌≤◌, ◌^◌, ◌++◌, Some, IfSome, IfNone, option_copied, slice_get, vec_len};
ghost use Rattle.std.specs.Vec.{vec_capacity};
ghost use Rattle.pa_buckets.specs.Limits.{class_count};
ghost use Rattle.pa_buckets.specs.Table.{pages_of};
ghost use Rattle.pa_record.specs.Spans.{Span};
ghost use Rattle.pa_record.specs.Root.{Took, current, new_span, with_span, front_taken, one_take, span_for, takes};
ghost use Rattle.pa_record.specs.Spans.{with_free};
ghost use Rattle.pa_place.specs.Order.{IsOrdered};
ghost use Rattle.pa_place.specs.Served.{blank_span};
ghost use Rattle.arrayvec.specs.ArrayVec.{array_vec_len};
ghost use Rattle.pa_place.specs.Filed.{HasRoomToList};
ghost use Rattle.pa_place.specs.Made.{made_from, cut_in, takes_cut};
ghost use Rattle.pa_place.specs.Store.{root_of, IsReady, IsUsableAt, FindsPlace, HasBlanks, room_for, IsFiled};

use crate::placed::Made;
use crate::plain_span::PlainSpan;
use crate::store::Store;
use arrayvec::ArrayVec;
use pa_buckets::{Class, span_of};
use pa_layout::page_start;
use pa_record::SuperPage;
use pa_slot::Title;

// The partition pages of a super page that come before its last guard.
const LAST_PAGE: u32 = 127;

impl Store {
    // Takes until that many slots are taken or a take finds none. As many blank spans are ready, and there is room for them.
    // Puts the slots into `titles` and the batches of slots that were made into `made`, which have none.
    #[inline(always)]
    pub(crate) fn takes(
        &mut self,
        class: Class,
        want: u32,
        blanks: &mut Vec<PlainSpan>,
        made: &mut ArrayVec<Made, 8>,
        titles: &mut ArrayVec<Title, 16>,
    )
        requires none { made.old.items ≡ [] }
        requires no_titles { titles.old.items ≡ [] }
        requires real { class < class_count }
        requires few { want ≤ 8 }
        requires ready { IsReady (root_of self.old) }
        requires ordered { IsOrdered (root_of self.old) }
        requires filed { IsFiled self.old }
        requires turn { self.old.turn < 2 ^ 62 }
        requires blanks { HasBlanks class want blanks.old.items }
        requires room { vec_len self.old.spans + want ≤ vec_capacity self.old.spans }
        requires lists { HasRoomToList class (vec_len self.old.spans + want) self.old.lists }
        ensures filled { takes class want (root_of self.old) ≡ record { root = root_of self.new; titles = titles.new.items } }
        ensures cut { made.new.items ≡ takes_cut class want (root_of self.old) }
        ensures many { vec_len self.new.spans ≤ vec_len self.old.spans + want }
        ensures blanks { HasBlanks class 0 blanks.new.items }
        ensures ordered { IsOrdered (root_of self.new) }
        ensures filed { IsFiled self.new }
    {
        for _taken in 0..want {
            match self.take(class, blanks, made) {
                Some(title) => titles.push(title),
                None => break,
            }
        }
    }

    // One take of a slot of the class that may not ask the pool. Some blank spans of the class are ready, and there is room
    // for one span more.
    #[inline(always)]
    fn take(
        &mut self,
        class: Class,
        blanks: &mut Vec<PlainSpan>,
        made: &mut ArrayVec<Made, 8>,
    ) -> Option<Title>
        requires few { array_vec_len made.old < 8 }
        requires real { class < class_count }
        requires ready { IsReady (root_of self.old) }
        requires ordered { IsOrdered (root_of self.old) }
        requires filed { IsFiled self.old }
        requires turn { self.old.turn < 2 ^ 63 }
        requires blanks { HasBlanks class 1 blanks.old.items }
        requires room { vec_len self.old.spans < vec_capacity self.old.spans }
        requires lists { HasRoomToList class (vec_len self.old.spans + 1) self.old.lists }
        ensures took { one_take class (root_of self.old) ≡ record { root = root_of self.new; title = result } }
        ensures cut { IfSome result (λ _. made.new.items ≡ made.old.items ++ cut_in (span_for class (root_of self.old))) }
        ensures same { IfNone result (made.new.items ≡ made.old.items) }
        ensures more { array_vec_len made.new ≤ array_vec_len made.old + 1 }
        ensures ordered { IsOrdered (root_of self.new) }
        ensures filed { IsFiled self.new }
        ensures lists { (n : ℕ) → HasRoomToList class n self.old.lists → HasRoomToList class n self.new.lists }
        ensures blanks { (n : ℕ) → HasBlanks class (n + 1) blanks.old.items → HasBlanks class n blanks.new.items }
        ensures many { vec_len self.new.spans ≤ vec_len self.old.spans + 1 }
        ensures room { vec_capacity self.new.spans ≡ vec_capacity self.old.spans }
    {
        let at = self.place_for(class, blanks)?;
        Some(self.take_at(at, made))
    }

    // The index of the span from which a slot of the class is taken. It is made if none is listed and the current super
    // page has room for it.
    fn place_for(&mut self, class: Class, blanks: &mut Vec<PlainSpan>) -> Option<usize>
        requires ready { IsReady (root_of self.old) }
        requires ordered { IsOrdered (root_of self.old) }
        requires filed { IsFiled self.old }
        requires blanks { HasBlanks class 1 blanks.old.items }
        requires room { vec_len self.old.spans < vec_capacity self.old.spans }
        requires lists { HasRoomToList class (vec_len self.old.spans + 1) self.old.lists }
        ensures place { FindsPlace class (root_of self.old) (root_of self.new) result }
        ensures ordered { IsOrdered (root_of self.new) }
        ensures filed { IsFiled self.new }
        ensures lists { (n : ℕ) → HasRoomToList class n self.old.lists → HasRoomToList class n self.new.lists }
        ensures blanks { (n : ℕ) → HasBlanks class (n + 1) blanks.old.items → HasBlanks class n blanks.new.items }
        ensures many { vec_len self.new.spans ≤ vec_len self.old.spans + 1 }
        ensures room { vec_capacity self.new.spans ≡ vec_capacity self.old.spans }
    {
        let listed = self.listed(class);
        if listed.is_some() {
            return listed;
        }
        let at = self.room_for(class)?;
        let place = self.spans.len();
        let span = blanks.pop().unwrap();
        self.add_span(class, at, span);
        Some(place)
    }

    // The current super page, if it has room for a span of the class.
    pub(crate) fn room_for(&self, class: Class) -> Option<SuperPage>
        requires { IsReady (root_of self.now) }
        ensures { result ≡ room_for class (root_of self.now) (current (root_of self.now)) }
    {
        let at = *self.supers.last()?;
        if self.page + span_of(class).pages <= LAST_PAGE {
            Some(at)
        } else {
            None
        }
    }

    // Puts the blank span of the class at the next free page, which is in the current super page.
    fn add_span(&mut self, class: Class, at: SuperPage, span: PlainSpan)
        requires blank { span ≡ blank_span class }
        requires number { at.number < 64 }
        requires page { self.old.page + pages_of class ≤ 127 }
        requires room { vec_len self.old.spans < vec_capacity self.old.spans }
        ensures lists { self.new.lists ≡ self.old.lists }
        ensures after { root_of self.new ≡ with_span (new_span class at self.old.page) (root_of self.old) }
        ensures many { vec_len self.new.spans ≡ vec_len self.old.spans + 1 }
        ensures room { vec_capacity self.new.spans ≡ vec_capacity self.old.spans }
    {
        let start = page_start(at.number, self.page);
        let pages = span_of(class).pages;
        self.homes.mark(start, pages, self.spans.len());
        self.page += pages;
        self.spans.push_reserved(span.at(start, at.born));
    }

    // Takes a slot from the span there, which has one that isn't out. Returns the batch of slots that it made, if it made
    // some.
    #[inline(always)]
    fn take_at(&mut self, at: usize, made: &mut ArrayVec<Made, 8>) -> Title
        requires few { array_vec_len made.old < 8 }
        requires ready { IsReady (root_of self.old) }
        requires ordered { IsOrdered (root_of self.old) }
        requires filed { IsFiled self.old }
        requires usable { IsUsableAt (root_of self.old) at }
        requires turn { self.old.turn < 2 ^ 63 }
        ensures took { (s : Span) → slice_get self.old.spans.items at ≡ Some s →
            front_taken (with_free s).free (with_free s) (root_of self.old) ≡ record { root = root_of self.new; title = Some result } }
        ensures cut { (s : Span) → slice_get self.old.spans.items at ≡ Some s →
            made.new.items ≡ made.old.items ++ made_from s.made (with_free s) }
        ensures more { array_vec_len made.new ≤ array_vec_len made.old + 1 }
        ensures ordered { IsOrdered (root_of self.new) }
        ensures filed { IsFiled self.new }
        ensures lists { (class n : ℕ) → HasRoomToList class n self.old.lists → HasRoomToList class n self.new.lists }
        ensures many { vec_len self.new.spans ≡ vec_len self.old.spans }
        ensures room { vec_capacity self.new.spans ≡ vec_capacity self.old.spans }
    {
        let span = &mut self.spans[at];
        let before = span.made();
        let title = span.take_slot();
        span.tell_made(before, made);
        let state = span.state_in_use();
        self.enter(at, state);
        title
    }
}
