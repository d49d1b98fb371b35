ghost use Rattle.std.specs.Prelude.{◌≡◌, ℕ, ◌+◌, ◌*◌, ◌/◌, ◌%◌, ◌<◌, ◌≤◌, ◌↔◌, ◌⊎◌, IsTrue, length};
ghost use Rattle.pa_slot.specs.Count.{CanStep, refs_of};
ghost use Rattle.pa_slot.specs.Titles.{IsWellFormed, count_word, IsUniform};
ghost use Rattle.pa_machine.specs.Events.{HasActor, HoldsOpen, HoldsItem, CanCount, IsEnabled, IsRawWord, IsTitleWord};
ghost use Rattle.pa_machine.specs.Tables.{AreSound, state_of, MayWrite, MayChange, MayPoison, MayCut};

use crate::event::{Event, Item};
use crate::tables::Tables;
use pa_slot::{OwnState, Step, Title, apply, refs};

// The conditions of the events, as tests on the tables.
impl Tables {
    // Whether the event is enabled.
    pub fn is_enabled(&self, event: &Event) -> bool
        requires { AreSound self.now }
        ensures { IsTrue result ↔ IsEnabled event.now (state_of self.now) }
    {
        match *event {
            Event::Count { actor, title, step } => self.can_count(actor, title, step),
            Event::Sealed { actor, title } => self.can_count(actor, title, Step::Issue),
            Event::Store { actor, at, value } => self.can_store(actor, at, value),
            Event::Poison { actor, title } => self.can_poison(actor, title),
            Event::Load { actor, at } => self.can_load(actor, at),
            Event::Hand { from, to, item } => self.can_hand(from, to, item),
            Event::Cut { actor, title } => self.can_cut(actor, title),
            Event::Uncut { actor, title } => self.can_uncut(actor, title),
        }
    }

    // Whether the actor may make this step on the title, and the step is enabled at its count word.
    fn can_count(&self, actor: u32, title: Title, step: Step) -> bool
        requires { AreSound self.now }
        ensures { IsTrue result ↔ IsEnabled (Event.Count actor title step) (state_of self.now) }
    {
        // what the two tests below require is known after this one
        if !self.has_actor(actor) {
            return false;
        }
        self.may_count(actor, title, step) && self.can_step(title, step)
    }

    // What the step requires of the actor.
    fn may_count(&self, actor: u32, title: Title, step: Step) -> bool
        requires sound { AreSound self.now }
        requires actor { HasActor (state_of self.now) actor }
        ensures { IsTrue result ↔ CanCount step (state_of self.now) actor title }
    {
        match step {
            Step::Issue => self.holds_free(actor, title) && self.content_is(title, 0),
            Step::Copy => self.may_copy_own(actor, title) || self.holds_ref(actor, title),
            Step::Reset => self.holds_ref(actor, title),
            Step::Free => self.holds_own(actor, title, OwnState::Poisoned(title.content_words())),
            Step::Write => self.holds_open(actor, title) && self.is_settled(title),
        }
    }

    // Whether no Ref of the title is counted and its content words are all equal.
    fn is_settled(&self, title: Title) -> bool
        requires { IsWellFormed (length self.now.words.items) title }
        ensures { IsTrue result ↔ ((refs_of (count_word self.now.words.items title) ≡ 0) × IsUniform self.now.words.items title) }
    {
        self.is_unshared(title) && self.is_uniform(title)
    }

    // Whether the actor has the title's Own clean or dirty.
    fn holds_open(&self, actor: u32, title: Title) -> bool
        requires sound { AreSound self.now }
        requires actor { HasActor (state_of self.now) actor }
        ensures { IsTrue result ↔ ((state : OwnState) × HoldsOpen (state_of self.now) actor title state) }
    {
        self.holds_own(actor, title, OwnState::Clean)
            || self.holds_own(actor, title, OwnState::Dirty)
    }

    // Whether the step is enabled at the title's count word.
    fn can_step(&self, title: Title, step: Step) -> bool
        requires { IsWellFormed (length self.now.words.items) title }
        ensures { IsTrue result ↔ CanStep step (count_word self.now.words.items title) }
    {
        apply(self.count_word(title), step).is_some()
    }

    // Whether no Ref of the title is counted.
    fn is_unshared(&self, title: Title) -> bool
        requires { IsWellFormed (length self.now.words.items) title }
        ensures { IsTrue result ↔ (refs_of (count_word self.now.words.items title) ≡ 0) }
    {
        refs(self.count_word(title)) == 0
    }

    // Whether the actor may store in the word at this byte. Which value it stores makes no difference.
    fn can_store(&self, actor: u32, at: u32, _value: u64) -> bool
        requires { AreSound self.now }
        ensures { IsTrue result ↔ IsEnabled (Event.Store actor at _value) (state_of self.now) }
    {
        self.has_actor(actor) && at % 8 == 0 && self.may_store(actor, at)
    }

    // Whether the word is raw for the actor, or a title's word in which it may write.
    fn may_store(&self, actor: u32, at: u32) -> bool
        requires sound { AreSound self.now }
        requires actor { HasActor (state_of self.now) actor }
        ensures { IsTrue result ↔ (IsRawWord (state_of self.now) actor at ⊎ MayWrite (state_of self.now) actor at) }
    {
        self.holds_raw(actor, at, 8) || self.may_write(actor, at)
    }

    // Whether the word is a content word of a free title of the actor, or of its unshared Own, clean or dirty.
    fn may_write(&self, actor: u32, at: u32) -> bool
        requires sound { AreSound self.now }
        requires actor { HasActor (state_of self.now) actor }
        ensures { IsTrue result ↔ MayWrite (state_of self.now) actor at }
    {
        match self.slot_over(at) {
            Some(slot) => slot.title.has_content(at) && self.may_change(actor, slot.title),
            None => false,
        }
    }

    // Whether the actor may change the title's content: it has it free, or its unshared Own, clean or dirty.
    fn may_change(&self, actor: u32, title: Title) -> bool
        requires sound { AreSound self.now }
        requires actor { HasActor (state_of self.now) actor }
        requires well { IsWellFormed (length self.now.words.items) title }
        ensures { IsTrue result ↔ MayChange (state_of self.now) actor title }
    {
        self.holds_free(actor, title) || (self.holds_open(actor, title) && self.is_unshared(title))
    }

    // Whether the actor may poison the next word of the title's content.
    fn can_poison(&self, actor: u32, title: Title) -> bool
        requires { AreSound self.now }
        ensures { IsTrue result ↔ IsEnabled (Event.Poison actor title) (state_of self.now) }
    {
        self.has_actor(actor) && self.may_poison(actor, title)
    }

    // Whether an actor that exists may poison the next word of the title's content.
    fn may_poison(&self, actor: u32, title: Title) -> bool
        requires sound { AreSound self.now }
        requires actor { HasActor (state_of self.now) actor }
        ensures { IsTrue result ↔ MayPoison (state_of self.now) actor title }
    {
        match self.slot_of(title) {
            Some(slot) => slot.can_poison(actor),
            None => false,
        }
    }

    // Whether the actor may load the word at this byte.
    fn can_load(&self, actor: u32, at: u32) -> bool
        requires { AreSound self.now }
        ensures { IsTrue result ↔ IsEnabled (Event.Load actor at) (state_of self.now) }
    {
        self.has_actor(actor) && at % 8 == 0 && self.may_load(actor, at)
    }

    // Whether the word is raw for the actor, or in a title that it holds.
    fn may_load(&self, actor: u32, at: u32) -> bool
        requires sound { AreSound self.now }
        requires actor { HasActor (state_of self.now) actor }
        ensures { IsTrue result ↔ (IsRawWord (state_of self.now) actor at ⊎ IsTitleWord (state_of self.now) actor at) }
    {
        self.holds_raw(actor, at, 8) || self.may_read(actor, at)
    }

    // Whether the word is in a title that the actor holds.
    fn may_read(&self, actor: u32, at: u32) -> bool
        requires sound { AreSound self.now }
        requires actor { HasActor (state_of self.now) actor }
        ensures { IsTrue result ↔ IsTitleWord (state_of self.now) actor at }
    {
        match self.slot_over(at) {
            Some(slot) => slot.is_held_by(actor),
            None => false,
        }
    }

    // Whether both actors exist and the first has the item.
    fn can_hand(&self, from: u32, to: u32, item: Item) -> bool
        requires { AreSound self.now }
        ensures { IsTrue result ↔ IsEnabled (Event.Hand from to item) (state_of self.now) }
    {
        self.has_actor(from) && self.has_actor(to) && self.holds_item(from, item)
    }

    // Whether the actor has the item. An Own is handed over clean.
    fn holds_item(&self, actor: u32, item: Item) -> bool
        requires sound { AreSound self.now }
        requires actor { HasActor (state_of self.now) actor }
        ensures { IsTrue result ↔ HoldsItem (state_of self.now) actor item }
    {
        match item {
            Item::Raw { start, len } => self.holds_raw(actor, start, len),
            Item::Free(title) => self.holds_free(actor, title),
            Item::Own(title) => self.holds_own(actor, title, OwnState::Clean),
            Item::Ref(title) => self.holds_ref(actor, title),
        }
    }

    // Whether the actor may cut the title out of raw bytes.
    fn can_cut(&self, actor: u32, title: Title) -> bool
        requires { AreSound self.now }
        ensures { IsTrue result ↔ IsEnabled (Event.Cut actor title) (state_of self.now) }
    {
        self.has_actor(actor) && self.may_cut(actor, title)
    }

    // Whether an actor that exists may cut the title out: it has at least two whole words,
    // all raw for the actor, and a count word of 0.
    fn may_cut(&self, actor: u32, title: Title) -> bool
        requires sound { AreSound self.now }
        requires actor { HasActor (state_of self.now) actor }
        ensures { IsTrue result ↔ MayCut (state_of self.now) actor title }
    {
        // what the two tests below require is known after this one
        if !is_aligned(title) {
            return false;
        }
        self.holds_raw(actor, title.start, title.len) && self.count_word(title).0 == 0
    }

    // Whether the actor has the title free, so that it may uncut it.
    fn can_uncut(&self, actor: u32, title: Title) -> bool
        requires { AreSound self.now }
        ensures { IsTrue result ↔ IsEnabled (Event.Uncut actor title) (state_of self.now) }
    {
        self.has_actor(actor) && self.holds_free(actor, title)
    }
}

// Whether the title begins and ends at a word and has room for a content word and its count word.
fn is_aligned(title: Title) -> bool
    ensures { IsTrue result ↔ ((title.start % 8 ≡ 0) × (title.len % 8 ≡ 0) × (16 ≤ title.len)) }
{
    title.start % 8 == 0 && title.len % 8 == 0 && title.len >= 16
}
