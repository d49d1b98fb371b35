ghost use Rattle.std.specs.Prelude.{◌≡◌, ◌<◌, ◌++◌, [], IfOk, OnErr, length, slice_set};
ghost use Rattle.pa_slot.specs.Count.{CanStep, number_of, stepped};
ghost use Rattle.pa_record.specs.Spans.{name_of};
ghost use Rattle.pa_player.specs.Tables.{slot_at, named_at, key_of, new_slot, AreNamed, IsHome, held_of, IsIn};

use pa_buckets::Class;
use pa_record::{Held, Numbered, Seen};
use pa_rules::Register;
use pa_slot::{OutOfMemory, SlotName, Step, Title, Word, apply, number};
use std::alloc::Global;
use std::collections::HashMap;
use std::marker::Model;

// A slot that left a root: its title, its partition, its class if it isn't a direct map, its count word, and the value of
// every word of its content while the allocator holds it.
#[derive(Clone, Copy)]
pub(crate) struct Slot {
    pub(crate) title: Title,
    pub(crate) partition: u32,
    pub(crate) class: Option<Class>,
    pub(crate) word: Word,
    pub(crate) content: u64,
}

// Every slot that ever left a root, in the order in which they first did. It is seen as the list of them, and finds each by its name.
#[derive(Drop)]
pub(crate) struct Table {
    slots: Vec<Slot>,
    homes: HashMap<u64, u32>,
}

impl Model for Table {
    ghost use Rattle.std.specs.Prelude.{List, nat_eq};
    ghost use Rattle.std.specs.HashMap.{get};
    ghost use Rattle.pa_player.specs.declared.table.Slot.{Slot};
    ghost use Rattle.pa_player.specs.Tables.{IsHomed};

    ghost Value = { List Slot };

    ghost view = { λ t. t.slots.items };

    ghost invariant = { λ t. IsHomed t.slots.items (get nat_eq t.homes) };
}

impl Table {
    // No slot.
    pub(crate) fn new(alloc: Global) -> Table
        ensures empty { result ≡ [] }
    {
        Table {
            slots: Vec::new(alloc),
            homes: HashMap::new(alloc),
        }
    }

    // What is known of every table: no two slots have one name.
    pub(crate) fn is_named(&self)
        ensures named { AreNamed self.now }
    {
        // Naming the slots hands the proof what the type keeps.
        let _slots = self.slots.len();
    }

    // The index of the title's slot. It is appended, never issued, if none has its name.
    // If memory runs out, the table is as before.
    pub(crate) fn home(
        &mut self,
        title: Title,
        partition: u32,
        class: Option<Class>,
    ) -> Result<u32, OutOfMemory>
        requires few { length self.old < 4294967295 }
        ensures home { IfOk result (λ place. IsHome self.old self.new (new_slot title partition class) place) }
        ensures same { OnErr result (self.new ≡ self.old) }
    {
        fits(title.start);
        let key = key_of(name_of(title));
        let found = self.homes.get(&key).copied();
        if let Some(place) = found {
            return Ok(place);
        }
        let place = self.slots.len() as u32;
        self.slots.reserve(1)?;
        self.homes.insert(key, place)?;
        self.slots.push_reserved(Slot {
            title,
            partition,
            class,
            word: Word(0),
            content: 0,
        });
        Ok(place)
    }

    // The slot at this index.
    pub(crate) fn slot(&self, place: u32) -> Slot
        requires among { place < length self.now }
        ensures slot { result ≡ slot_at self.now place }
    {
        self.slots[place as usize]
    }

    // Its name, with the count word that is found there.
    pub(crate) fn seen(&self, place: u32) -> Seen
        requires among { place < length self.now }
        ensures slot { result.slot ≡ named_at self.now place }
        ensures found { result.found ≡ (slot_at self.now place).word }
    {
        let slot = &self.slots[place as usize];
        Seen {
            slot: name_of(slot.title),
            found: slot.word,
        }
    }

    // Its name, with the number of its count word.
    pub(crate) fn numbered(&self, place: u32) -> Numbered
        requires among { place < length self.now }
        ensures slot { result.slot ≡ named_at self.now place }
        ensures number { result.number ≡ number_of (slot_at self.now place).word.0 }
    {
        let slot = &self.slots[place as usize];
        Numbered {
            slot: name_of(slot.title),
            number: number(slot.word),
        }
    }

    // Makes a step on its count word. Returns what was found there.
    pub(crate) fn step(&mut self, place: u32, step: Step) -> Seen
        requires among { place < length self.old }
        requires can { CanStep step (slot_at self.old place).word.0 }
        ensures slot { result.slot ≡ named_at self.old place }
        ensures found { result.found ≡ (slot_at self.old place).word }
        ensures stepped { self.new ≡ slice_set self.old place
            (record (slot_at self.old place) { word = record { 0 = stepped step (slot_at self.old place).word.0 } }) }
    {
        let seen = self.seen(place);
        let word = apply(seen.found, step).unwrap();
        self.slots[place as usize].word = word;
        seen
    }

    // Sets the value of every word of its content.
    pub(crate) fn fill(&mut self, place: u32, value: u64)
        requires among { place < length self.old }
        ensures filled { self.new ≡ slice_set self.old place (record (slot_at self.old place) { content = value }) }
    {
        self.slots[place as usize].content = value;
    }

    // How a handle is reported.
    pub(crate) fn told(&self, handle: Register<u32>) -> Held
        requires among { IsIn (length self.now) handle }
        ensures told { result ≡ held_of self.now handle }
    {
        match handle {
            Register::Own(place) => Held::Own(name_of(self.slots[place as usize].title)),
            Register::Ref(place) => Held::Ref(name_of(self.slots[place as usize].title)),
            Register::Empty | Register::Freed | Register::Cleared => Held::Nothing,
        }
    }
}

// What the type says of a number.
pub(crate) fn fits(number: u32)
    ensures { number < 4294967296 }
{
    // Naming the number hands the proof that it has 32 bits.
    let _number = number;
}

// The name of a title.
pub(crate) fn name_of(title: Title) -> SlotName
    ensures { result ≡ name_of title }
{
    SlotName {
        start: title.start,
        born: title.born,
    }
}

// A slot's name as one number.
fn key_of(name: SlotName) -> u64
    ensures { result ≡ key_of name }
{
    u64::from(name.start) + 4_294_967_296 * u64::from(name.born)
}
