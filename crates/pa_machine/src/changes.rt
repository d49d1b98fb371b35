ghost use Rattle.std.specs.Prelude.{◌≡◌, ℕ, ◌+◌, ◌*◌, ◌/◌, ◌%◌, ◌<◌, ◌≤◌, ◌↔◌, ◌⊎◌, ◌==◌, ◌&&◌, IsTrue, IfSome, IfNone, OnOk, OnErr, length, Some, None, Contains, slice_set, slice_index, Bool, true};
ghost use Rattle.pa_slot.specs.Count.{held_of, refs_of};
ghost use Rattle.pa_machine.specs.Events.{IsEnabled, Happens};
ghost use Rattle.pa_machine.specs.Tables.{AreSound, state_of, IsChangedAt, IsEntryAt, IsSlotStepped, IsIssuedSlot, IsRestatedSlot, IsSameSlot, IsNextSlot, IsFilled, slot_at, slot_over};
ghost use Rattle.pa_slot.specs.Titles.{progress};
ghost use Rattle.pa_machine.specs.Trail.{MayNeedMemory};

use crate::event::{Event, Item};
use crate::slot::{Owner, Slot};
use crate::tables::Tables;
use pa_slot::{OutOfMemory, OwnState, POISON, Step, Title, Word, held, next, refs};

// What the events change in the tables, one function for each.
impl Tables {
    // Makes an event that is enabled. If memory runs out, nothing changes; it does only for a copy or a cut.
    pub fn make(&mut self, event: &Event) -> Result<(), OutOfMemory>
        requires sound { AreSound self.old }
        requires enabled { IsEnabled event.now (state_of self.old) }
        ensures ok { OnOk result (Happens event.now (state_of self.old) (state_of self.new)) }
        ensures sound { AreSound self.new }
        ensures err { OnErr result (state_of self.new ≡ state_of self.old) }
        ensures asks { OnErr result (MayNeedMemory event.now) }
    {
        match *event {
            Event::Count { actor, title, step } => return self.count(actor, title, step),
            Event::Sealed { actor, title } => self.issue_sealed(actor, title),
            Event::Store { actor, at, value } => self.store(actor, at, value),
            Event::Poison { actor, title } => self.poison(actor, title),
            Event::Load { .. } => {}
            Event::Hand { from, to, item } => self.hand(from, to, item),
            Event::Cut { actor, title } => return self.cut(actor, title),
            Event::Uncut { actor, title } => self.uncut(actor, title),
        }
        Ok(())
    }

    // A counted step: the count word, and what the actor and the owner have of the title.
    pub fn count(&mut self, actor: u32, title: Title, step: Step) -> Result<(), OutOfMemory>
        requires sound { AreSound self.old }
        requires enabled { IsEnabled (Event.Count actor title step) (state_of self.old) }
        ensures ok { OnOk result (Happens (Event.Count actor title step) (state_of self.old) (state_of self.new)) }
        ensures sound { AreSound self.new }
        ensures err { OnErr result (state_of self.new ≡ state_of self.old) }
        ensures asks { OnErr result (step ≡ Step.Copy) }
    {
        let after = next(self.count_word(title), step);
        let back = is_free(after);
        step_at(&mut self.slots, title.first_word(), actor, step, back)?;
        self.words[title.count_place()] = after.0;
        Ok(())
    }

    // An Issue whose Own is sealed: the count word as by any Issue, and the actor's Own.
    pub fn issue_sealed(&mut self, actor: u32, title: Title)
        requires sound { AreSound self.old }
        requires enabled { IsEnabled (Event.Sealed actor title) (state_of self.old) }
        ensures happens { Happens (Event.Sealed actor title) (state_of self.old) (state_of self.new) }
        ensures sound { AreSound self.new }
    {
        let after = next(self.count_word(title), Step::Issue);
        issue_sealed_at(&mut self.slots, title.first_word(), actor);
        self.words[title.count_place()] = after.0;
    }

    // Stores the value. If the word is content of an Own, that Own becomes dirty.
    pub fn store(&mut self, actor: u32, at: u32, value: u64)
        requires sound { AreSound self.old }
        requires enabled { IsEnabled (Event.Store actor at value) (state_of self.old) }
        ensures happens { Happens (Event.Store actor at value) (state_of self.old) (state_of self.new) }
        ensures sound { AreSound self.new }
    {
        let word = at as usize / 8;
        if let Some(place) = self.own_over(actor, at) {
            restate_at(&mut self.slots, place, actor, OwnState::Dirty);
            self.words[word] = value;
            return;
        }
        self.words[word] = value;
    }

    // The start of the title that has the byte and whose Own the actor has.
    fn own_over(&self, actor: u32, at: u32) -> Option<usize>
        requires sound { AreSound self.now }
        ensures some { IfSome result
            (λ p. (o : Slot) × (s : OwnState) × (sealed : Bool) × (slot_over self.now.homes.items self.now.slots.items at ≡ Some o)
            × (o.own ≡ Some (record { actor = actor; state = s; sealed = sealed })) × (p ≡ o.title.start / 8)) }
        ensures none { IfNone result
            ((o : Slot) (s : OwnState) (sealed : Bool) → slot_over self.now.homes.items self.now.slots.items at ≡ Some o →
            o.own ≡ Some (record { actor = actor; state = s; sealed = sealed }) → ⊥) }
    {
        match self.slot_over(at) {
            Some(slot) => slot.own_place(actor),
            None => None,
        }
    }

    // Poisons the next word of the content.
    pub fn poison(&mut self, actor: u32, title: Title)
        requires sound { AreSound self.old }
        requires enabled { IsEnabled (Event.Poison actor title) (state_of self.old) }
        ensures happens { Happens (Event.Poison actor title) (state_of self.old) (state_of self.new) }
        ensures sound { AreSound self.new }
    {
        // A hint to the proof: the number of content words is the contract's `content_count`.
        let _words = title.content_words();
        let done = self.progress_of(title);
        restate_at(
            &mut self.slots,
            title.first_word(),
            actor,
            OwnState::Poisoned(done + 1),
        );
        self.words[title.first_word() + done as usize] = POISON;
    }

    // How many words of the title its owner has poisoned.
    fn progress_of(&self, title: Title) -> u32
        ensures { (o : Slot) (w : Owner) → slot_at self.now.slots.items title ≡ Some o → o.own ≡ Some w → result ≡ progress w.state }
    {
        match self.slot_of(title) {
            Some(slot) => slot.progress(),
            None => 0,
        }
    }

    // Hands the item over.
    pub fn hand(&mut self, from: u32, to: u32, item: Item)
        requires sound { AreSound self.old }
        requires enabled { IsEnabled (Event.Hand from to item) (state_of self.old) }
        ensures happens { Happens (Event.Hand from to item) (state_of self.old) (state_of self.new) }
        ensures sound { AreSound self.new }
    {
        match item {
            Item::Raw { start, len } => self.hand_raw(from, to, start, len),
            Item::Free(title) => self.hand_free(from, to, title),
            Item::Own(title) => self.hand_own(from, to, title),
            Item::Ref(title) => self.hand_ref(from, to, title),
        }
    }

    // Hands raw bytes over.
    fn hand_raw(&mut self, from: u32, to: u32, start: u32, len: u32)
        requires sound { AreSound self.old }
        requires enabled { IsEnabled (Event.Hand from to (Item.Raw start len)) (state_of self.old) }
        ensures happens { Happens (Event.Hand from to (Item.Raw start len)) (state_of self.old) (state_of self.new) }
        ensures sound { AreSound self.new }
    {
        if len > 0 {
            give_bytes(
                &mut self.holders,
                start as usize,
                start as usize + len as usize,
                Some(to),
            );
        }
    }

    // Hands a free title over.
    fn hand_free(&mut self, from: u32, to: u32, title: Title)
        requires sound { AreSound self.old }
        requires enabled { IsEnabled (Event.Hand from to (Item.Free title)) (state_of self.old) }
        ensures happens { Happens (Event.Hand from to (Item.Free title)) (state_of self.old) (state_of self.new) }
        ensures sound { AreSound self.new }
    {
        hand_free_at(&mut self.slots, title.first_word(), to);
    }

    // Hands the Own over, which is clean.
    fn hand_own(&mut self, from: u32, to: u32, title: Title)
        requires sound { AreSound self.old }
        requires enabled { IsEnabled (Event.Hand from to (Item.Own title)) (state_of self.old) }
        ensures happens { Happens (Event.Hand from to (Item.Own title)) (state_of self.old) (state_of self.new) }
        ensures sound { AreSound self.new }
    {
        restate_at(&mut self.slots, title.first_word(), to, OwnState::Clean);
    }

    // Hands one Ref over.
    fn hand_ref(&mut self, from: u32, to: u32, title: Title)
        requires sound { AreSound self.old }
        requires enabled { IsEnabled (Event.Hand from to (Item.Ref title)) (state_of self.old) }
        ensures happens { Happens (Event.Hand from to (Item.Ref title)) (state_of self.old) (state_of self.new) }
        ensures sound { AreSound self.new }
    {
        hand_ref_at(&mut self.slots, title.first_word(), from, to);
    }

    // Cuts the title out of raw bytes of the actor, which then holds it free.
    pub fn cut(&mut self, actor: u32, title: Title) -> Result<(), OutOfMemory>
        requires sound { AreSound self.old }
        requires enabled { IsEnabled (Event.Cut actor title) (state_of self.old) }
        ensures ok { OnOk result (Happens (Event.Cut actor title) (state_of self.old) (state_of self.new)) }
        ensures sound { AreSound self.new }
        ensures err { OnErr result (state_of self.new ≡ state_of self.old) }
    {
        let entry = Box::new(self.alloc, Slot::cut_out(self.alloc, actor, title))?;
        let first = title.first_word();
        self.slots[first] = Some(entry);
        give_bytes(
            &mut self.holders,
            title.start as usize,
            title.start as usize + title.len as usize,
            None,
        );
        point_words(
            &mut self.homes,
            first,
            title.count_place() + 1,
            first as u32,
        );
        Ok(())
    }

    // Uncuts a free title of the actor: its bytes are raw.
    pub fn uncut(&mut self, actor: u32, title: Title)
        requires sound { AreSound self.old }
        requires enabled { IsEnabled (Event.Uncut actor title) (state_of self.old) }
        ensures happens { Happens (Event.Uncut actor title) (state_of self.old) (state_of self.new) }
        ensures sound { AreSound self.new }
    {
        self.slots[title.first_word()] = None;
        give_bytes(
            &mut self.holders,
            title.start as usize,
            title.start as usize + title.len as usize,
            Some(actor),
        );
    }
}

// Whether the word's bit and count are both 0.
fn is_free(word: Word) -> bool
    ensures { result ≡ ((held_of word.0 == 0) && (refs_of word.0 == 0)) }
{
    !held(word) && refs(word) == 0
}

// Makes the step in the entry of the title that starts at this word.
fn step_at(
    slots: &mut [Option<Box<Slot>>],
    place: usize,
    actor: u32,
    step: Step,
    back: bool,
) -> Result<(), OutOfMemory>
    requires inside { place < length slots.old }
    requires entry { IsEntryAt (λ o. step ≡ Step.Reset → Contains o.refs.items actor) slots.old place }
    ensures ok { OnOk result (IsChangedAt (IsSlotStepped step actor back) slots.old place slots.new) }
    ensures err { OnErr result (IsChangedAt IsSameSlot slots.old place slots.new) }
    ensures asks { OnErr result (step ≡ Step.Copy) }
{
    match &mut slots[place] {
        Some(slot) => slot.make_step(actor, step, back),
        None => Ok(()),
    }
}

// The title that starts at this word, which was free, is the actor's sealed Own then.
fn issue_sealed_at(slots: &mut [Option<Box<Slot>>], place: usize, actor: u32)
    requires inside { place < length slots.old }
    requires entry { IsEntryAt (λ o. Unit {0}) slots.old place }
    ensures { IsChangedAt (IsIssuedSlot true actor) slots.old place slots.new }
{
    if let Some(slot) = &mut slots[place] {
        slot.issue(actor, true);
    }
}

// The title that starts at this word has this owner and state then, sealed or not as before.
fn restate_at(slots: &mut [Option<Box<Slot>>], place: usize, actor: u32, state: OwnState)
    requires inside { place < length slots.old }
    requires entry { IsEntryAt (λ o. Unit {0}) slots.old place }
    ensures { IsChangedAt (IsRestatedSlot actor state) slots.old place slots.new }
{
    if let Some(slot) = &mut slots[place] {
        slot.restate(actor, state);
    }
}

// The title that starts at this word is free of this actor then.
fn hand_free_at(slots: &mut [Option<Box<Slot>>], place: usize, to: u32)
    requires inside { place < length slots.old }
    requires entry { IsEntryAt (λ o. Unit {0}) slots.old place }
    ensures { IsChangedAt (λ o n. IsNextSlot o n (Some to) o.own o.refs.items) slots.old place slots.new }
{
    if let Some(slot) = &mut slots[place] {
        slot.hand_free(to);
    }
}

// One Ref of the title that starts at this word goes from one actor to the other.
fn hand_ref_at(slots: &mut [Option<Box<Slot>>], place: usize, from: u32, to: u32)
    requires inside { place < length slots.old }
    requires entry { IsEntryAt (λ o. Contains o.refs.items from) slots.old place }
    ensures { IsChangedAt
        (λ o n. (k : ℕ) × (k < length o.refs.items) × (slice_index o.refs.items k ≡ from)
        × IsNextSlot o n o.free o.own (slice_set o.refs.items k to)) slots.old place slots.new }
{
    if let Some(slot) = &mut slots[place] {
        slot.hand_ref(from, to);
    }
}

// The bytes from `start` to before `end` have this holder.
fn give_bytes(holders: &mut [Option<u32>], start: usize, end: usize, holder: Option<u32>)
    requires order { start ≤ end }
    requires inside { end ≤ length holders.old }
    ensures { IsFilled None holders.old start end holder holders.new }
{
    for byte in start..end {
        holders[byte] = holder;
    }
}

// The words from `start` to before `end` lie in the title that starts at this word.
fn point_words(homes: &mut [u32], start: usize, end: usize, home: u32)
    requires order { start ≤ end }
    requires inside { end ≤ length homes.old }
    ensures { IsFilled 0 homes.old start end home homes.new }
{
    for word in start..end {
        homes[word] = home;
    }
}
