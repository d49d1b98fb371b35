ghost use Rattle.std.specs.Prelude.{◌≡◌, ◌≢◌, ℕ, ◌+◌, ◌*◌, ◌/◌, ◌%◌, ◌^◌, ◌<◌, ◌≤◌, ◌↔◌, IsTrue, Ok, Err, OnOk, OnErr, IfOk, IfErr, length, slice_index, slice_get, take};
ghost use Rattle.pa_slot.specs.declared.title.Title.{Title as TitleOf};
ghost use Rattle.pa_machine.specs.Events.{State, IsEnabled, Happens, IsSameShape, IsStart};
ghost use Rattle.pa_machine.specs.Trail.{IsGoodState, KeepsContent, OnlyReturns, noted, MayNeedMemory, IsRunTo, IsRefusedFor};

use crate::event::{Event, StepFault};
use crate::tables::Tables;
use pa_slot::OutOfMemory;
use std::alloc::Global;
use std::marker::Model;

/// The core: the words of a region, and actors that hold its bytes and titles. Every core is good: each byte is raw
/// for one actor or lies in one title that is held, the count words count the handles, what is quarantined is poison.
#[derive(Drop)]
pub struct Core {
    tables: Tables,
}

impl Model for Core {
    ghost use Rattle.pa_machine.specs.Events.{State};

    ghost Value = { State };

    ghost use Rattle.pa_machine.specs.Tables.{AreSound, state_of};

    ghost view = { λ c. state_of c.tables };

    ghost invariant = { λ c. AreSound c.tables };
}

impl Core {
    /// One event. `NotEnabled` comes exactly when the event's condition fails; only a copy and a cut may need memory. After a
    /// refusal the core is as before.
    pub fn step(&mut self, event: &Event) -> Result<(), StepFault>
        ensures happens { OnOk result (IsEnabled event.now self.old × Happens event.now self.old self.new) }
        ensures refused { result ≡ Err StepFault.NotEnabled → (IsEnabled event.now self.old → ⊥) }
        ensures enabled { result ≡ Err StepFault.OutOfMemory → IsEnabled event.now self.old }
        ensures asks { result ≡ Err StepFault.OutOfMemory → MayNeedMemory event.now }
        ensures same { OnErr result (self.new ≡ self.old) }
        ensures shape { IsSameShape self.old self.new }
        ensures good { IsGoodState self.new }
        ensures returns { OnOk result (OnlyReturns event.now self.old self.new) }
        ensures content { OnOk result
            ((last : TitleOf → ℕ) → KeepsContent self.old last → KeepsContent self.new (noted event.now self.new last)) }
    {
        if !self.tables.is_enabled(event) {
            return Err(StepFault::NotEnabled);
        }
        match self.tables.make(event) {
            Ok(()) => Ok(()),
            Err(OutOfMemory) => Err(StepFault::OutOfMemory),
        }
    }

    /// The word at the offset `at`, which is a multiple of 8 within the region.
    pub fn word(&self, at: u32) -> u64
        requires place { at % 8 ≡ 0 }
        requires inside { at < 8 * length self.now.words }
        ensures { result ≡ slice_index self.now.words (at / 8) }
    {
        self.tables.words[at as usize / 8]
    }

    /// A core of `bytes` bytes, all of whose words are 0, with actors from 0; actor 0 holds every byte as raw.
    pub fn new(alloc: Global, bytes: u32, actors: u32) -> Result<Core, OutOfMemory>
        requires whole { bytes % 8 ≡ 0 }
        requires some_actor { 1 ≤ actors }
        ensures start { IfOk result (λ c. IsStart bytes actors c) }
        ensures good { IfOk result (λ c. IsGoodState c) }
        ensures content { IfOk result (λ c. (last : TitleOf → ℕ) → KeepsContent c last) }
    {
        let tables = Tables::new(alloc, bytes, actors)?;
        Ok(Core { tables })
    }
}

/// Plays the events in order. At a refusal the number is the event's index, and the events before it stay made.
pub fn core_run(core: &mut Core, events: &[Event]) -> Result<(), (u32, StepFault)>
    requires { length events.now < 2 ^ 32 }
    ensures done { OnOk result (IsRunTo core.old events.now core.new) }
    ensures refused { IfErr result
        (λ e. (e.0 < length events.now) × IsRunTo core.old (take e.0 events.now) core.new
        × IsRefusedFor e.1 (slice_get events.now e.0) core.new) }
    ensures shape { IsSameShape core.old core.new }
    ensures good { IsGoodState core.new }
{
    known_good(core);
    for (index, event) in events.iter().enumerate() {
        if let Err(fault) = core.step(event) {
            return Err((index as u32, fault));
        }
    }
    Ok(())
}

// Every core is good.
fn known_good(core: &Core)
    ensures { IsGoodState core.now }
{
    // Naming the tables hands the proof what the type keeps.
    let _ = &core.tables;
}
