ghost use Rattle.std.specs.Prelude.{◌≡◌, ℕ, ◌+◌, ◌-◌, ◌*◌, ◌/◌, ◌<◌, ◌≤◌, ◌%◌, ◌↔◌, ◌⊎◌, IsTrue, Some, None, length, option_copied, IfOk, replicate, false};
ghost use Rattle.std.specs.List.{slice_index_or};
ghost use Rattle.pa_slot.specs.Titles.{IsWellFormed, count_word, HasContentFrom, IsUniform};
ghost use Rattle.pa_slot.specs.Holdings.{FreeTitle, OwnAs, RefOf};
ghost use Rattle.pa_machine.specs.Events.{HasActor, Holds, HoldsRaw, IsSealedAs};
ghost use Rattle.pa_machine.specs.Tables.{AreSound, IsStartTables, state_of, slot_at, slot_over};

use crate::slot::Slot;
use pa_slot::{OutOfMemory, OwnState, Title, Word};
use std::alloc::Global;

/// The core as it is kept: the words; of each byte the actor that holds it raw; of each word the title that starts
/// there; and of each word the first word of the held title that it lies in.
#[derive(Drop)]
pub struct Tables {
    pub words: Vec<u64>,
    pub holders: Vec<Option<u32>>,
    pub slots: Vec<Option<Box<Slot>>>,
    pub homes: Vec<u32>,
    pub actors: u32,
    pub alloc: Global,
}

impl Tables {
    // Words of 0, and every byte raw for actor 0.
    pub fn new(alloc: Global, bytes: u32, actors: u32) -> Result<Tables, OutOfMemory>
        requires whole { bytes % 8 ≡ 0 }
        requires some_actor { 1 ≤ actors }
        ensures start { IfOk result (λ c. IsStartTables bytes actors c) }
    {
        let count = bytes as usize / 8;
        Ok(Tables {
            words: vec![in alloc; 0; count]?,
            holders: vec![in alloc; Some(0); bytes as usize]?,
            slots: no_slots(alloc, count)?,
            homes: vec![in alloc; 0; count]?,
            actors,
            alloc,
        })
    }

    // Whether the actor exists.
    pub fn has_actor(&self, actor: u32) -> bool
        ensures { IsTrue result ↔ HasActor (state_of self.now) actor }
    {
        actor < self.actors
    }

    // The title's entry, if some actor holds the title.
    pub fn slot_of(&self, title: Title) -> Option<&Slot>
        ensures { option_copied result ≡ slot_at self.now.slots.items title }
    {
        let place = title.first_word();
        if place >= self.slots.len() {
            return None;
        }
        match &self.slots[place] {
            Some(slot) if slot.title == title => Some(slot),
            _ => None,
        }
    }

    // The entry whose title has the byte, if some actor holds such a title.
    pub fn slot_over(&self, at: u32) -> Option<&Slot>
        ensures { option_copied result ≡ slot_over self.now.homes.items self.now.slots.items at }
    {
        let word = at as usize / 8;
        let home = if word < self.homes.len() {
            self.homes[word] as usize
        } else {
            0
        };
        if home >= self.slots.len() {
            return None;
        }
        match &self.slots[home] {
            Some(slot) if slot.title.covers(at) => Some(slot),
            _ => None,
        }
    }

    // Whether the actor holds the range as raw, byte by byte.
    pub fn holds_raw(&self, actor: u32, start: u32, len: u32) -> bool
        requires { HasActor (state_of self.now) actor }
        ensures { IsTrue result ↔ HoldsRaw (state_of self.now) actor start len }
    {
        let from = start as usize;
        let to = from + len as usize;
        if to > self.holders.len() {
            return len == 0;
        }
        for byte in from..to {
            if !self.is_raw_of(actor, byte) {
                return false;
            }
        }
        true
    }

    // Whether the byte is raw and held by the actor.
    fn is_raw_of(&self, actor: u32, byte: usize) -> bool
        requires { byte < length self.now.holders.items }
        ensures { IsTrue result ↔ (slice_index_or self.now.holders.items byte None ≡ Some actor) }
    {
        self.holders[byte] == Some(actor)
    }

    // Whether the actor has the title free.
    pub fn holds_free(&self, actor: u32, title: Title) -> bool
        requires sound { AreSound self.now }
        requires actor { HasActor (state_of self.now) actor }
        ensures { IsTrue result ↔ Holds (state_of self.now) actor (FreeTitle title) }
    {
        match self.slot_of(title) {
            Some(slot) => slot.is_free_of(actor),
            None => false,
        }
    }

    // Whether the actor has the title's Own in this state.
    pub fn holds_own(&self, actor: u32, title: Title, state: OwnState) -> bool
        requires sound { AreSound self.now }
        requires actor { HasActor (state_of self.now) actor }
        ensures { IsTrue result ↔ Holds (state_of self.now) actor (OwnAs title state) }
    {
        match self.slot_of(title) {
            Some(slot) => slot.is_owned_by(actor, state),
            None => false,
        }
    }

    // Whether the actor has the title's Own clean and not sealed, so that it may copy it.
    pub fn may_copy_own(&self, actor: u32, title: Title) -> bool
        requires sound { AreSound self.now }
        requires actor { HasActor (state_of self.now) actor }
        ensures { IsTrue result ↔
            (Holds (state_of self.now) actor (OwnAs title OwnState.Clean) × IsSealedAs (state_of self.now) actor title false) }
    {
        match self.slot_of(title) {
            Some(slot) => slot.can_copy(actor),
            None => false,
        }
    }

    // Whether the actor has a Ref of the title.
    pub fn holds_ref(&self, actor: u32, title: Title) -> bool
        requires sound { AreSound self.now }
        requires actor { HasActor (state_of self.now) actor }
        ensures { IsTrue result ↔ Holds (state_of self.now) actor (RefOf title) }
    {
        match self.slot_of(title) {
            Some(slot) => slot.has_ref_of(actor),
            None => false,
        }
    }

    // The title's count word.
    pub fn count_word(&self, title: Title) -> Word
        requires { IsWellFormed (length self.now.words.items) title }
        ensures { result.0 ≡ count_word self.now.words.items title }
    {
        Word(self.words[title.count_place()])
    }

    // Whether each content word of the title has the value.
    pub fn content_is(&self, title: Title, value: u64) -> bool
        requires { IsWellFormed (length self.now.words.items) title }
        ensures { IsTrue result ↔ HasContentFrom self.now.words.items title 0 value }
    {
        let first = title.first_word();
        for i in 0..title.content_words() as usize {
            if self.words[first + i] != value {
                return false;
            }
        }
        true
    }

    // Whether the content words of the title are all equal.
    pub fn is_uniform(&self, title: Title) -> bool
        requires { IsWellFormed (length self.now.words.items) title }
        ensures { IsTrue result ↔ IsUniform self.now.words.items title }
    {
        self.content_is(title, self.words[title.first_word()])
    }
}

// A table of `count` entries without a title.
fn no_slots(alloc: Global, count: usize) -> Result<Vec<Option<Box<Slot>>>, OutOfMemory>
    ensures { IfOk result (λ v. v.items ≡ replicate count None) }
{
    let mut slots = Vec::with_capacity(alloc, count)?;
    for _ in 0..count {
        slots.push(None)?;
    }
    Ok(slots)
}
